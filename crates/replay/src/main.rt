// The Rust's own answers, replayed: each call of a recording is made on the port, and its answer and the block's numbers after it are held to what the
// Rust gave. Reads the recording from standard input; writes how many steps agreed, and the first that did not.
#![tactic(auto)]

mod judge; // the comparison, and the run

ghost use Rattle.std.specs.Prelude.{◌≤◌, length, IfOk};

use block::Kcp;
use block::acklist::AckList;
use block::clock::Clock;
use block::congestion::Congestion;
use block::probe::Probe;
use block::receiver::Receiver;
use block::sender::Sender;
use block::settings::Settings;
use estimator::Estimator;
use judge::{Tally, run};
use recorded::memory::LentMemory;
use recorded::sums::filled;
use std::io::{self, Read};

// The tally in words.
fn write_tally(rt: &impl Print, tally: Tally) -> io::Result<()> {
    println!(rt; "{} steps, {} agree", tally.steps, tally.agreed)?;
    match tally.first {
        None => println!(rt; "first that does not: none"),
        Some(first) => println!(rt; "first that does not: {first}"),
    }
}

// Reads what is to come, as far as buf holds it, and answers how many bytes. Each read but the last gives a byte at least. A loop by hand, since
// `read_to_end` fills a Vec, which the project has none of, and `read_exact` fails at an early end.
fn read_full(rt: &impl Input, buf: &mut [u8]) -> io::Result<usize>
    ensures { IfOk result (λ n. n ≤ length buf.new) }
{
    let mut reader = rt.reader();
    let mut n = 0;
    while n < buf.len() {
        let more = reader.read(&mut buf[n..])?;
        if more == 0 {
            break;
        }
        n += more;
    }
    Ok(n)
}

// A block before any step: the recording's first makes one anew.
fn before() -> Kcp {
    Kcp {
        settings: Settings::new(0, false),
        clock: Clock::new(Kcp::INTERVAL),
        estimator: Estimator::new(),
        congestion: Congestion::new(),
        probe: Probe::new(),
        receiver: Receiver::new(),
        acklist: AckList::new(),
        sender: Sender::new(),
    }
}

// The most bytes of a recording, and the payloads of 1,024 slots.
const RECORDING: usize = 1048576;

const ROOM: usize = 1511424;

// R = 1,024, P = 1,024, A = 4,096.
fn main(rt: HostRuntime) -> io::Result<()> {
    let mut recording: [u8; RECORDING] = filled(0);
    let read = read_full(&rt, &mut recording)?;
    let mut rcv_records: [u32; 1024] = filled(0);
    let mut rcv_room: [u8; ROOM] = filled(0);
    let mut snd_records: [u32; 9216] = filled(0);
    let mut snd_room: [u8; ROOM] = filled(0);
    let mut acks: [u32; 8192] = filled(0);
    let mut waiting = [0u8; 1500];
    let mut lent = LentMemory {
        rcv_records: &mut rcv_records,
        rcv_room: &mut rcv_room,
        snd_records: &mut snd_records,
        snd_room: &mut snd_room,
        acks: &mut acks,
        waiting: &mut waiting,
    };
    let tally = run(before(), &recording[..read], &mut lent);
    write_tally(&rt, tally)
}

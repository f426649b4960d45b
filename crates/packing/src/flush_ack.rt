// flush_ack in lent memory: the acks are packed behind the bytes that wait; full datagrams go out, and the last bytes stay waiting.
// `held` stands beside `waiting`, which is written behind it, and `n` beside `acks`, whose memory is longer than the list: to cut the pairs to size would have
// their count divided out again in each clause.
ghost use Rattle.std.specs.Prelude.{◌≡◌, ◌*◌, ◌≤◌, length, replicate, take};
ghost use Rattle.flushing.specs.Pack.{pack};
ghost use Rattle.packing.specs.Packer.{holding, sized};
ghost use Rattle.packing.specs.Acks.{acks_of, ack_bytes};
ghost use Rattle.packing.specs.FlushAck.{writing, put_out, flush_ack_at};

use crate::acks::{acks_cut, acks_sized, put_acks};
use crate::packer::Packer;
use crate::puts::put_waiting;
use block::refusal::Refusal;
use flushing::headers::Told;

// What flush_ack comes to: the datagrams that went out and the bytes that wait then.
#[derive(Clone, Copy)]
pub struct Sent {
    pub datagrams: usize,
    pub waiting: usize,
}

// What n acks behind `held` waiting bytes come to.
fn flush_ack_sizes(mtu: usize, n: usize, held: usize) -> Packer
    requires mtu_bound { mtu ≤ 1500 }
    requires n_bound { n ≤ 4096 }
    requires held_bound { held ≤ 1500 }
    ensures { result ≡ sized mtu (holding held) (replicate n 24) }
{
    acks_sized(Packer::new(held), mtu, n)
}

// Writes what the sizes p say: where no datagram is full all acks join the waiting bytes; else the first of them follow those bytes out, and the
// others wait in their place.
fn flush_ack_write(
    told: Told,
    mtu: usize,
    acks: &[u32],
    n: usize,
    waiting: &mut [u8],
    held: usize,
    out: &mut [u8],
    lengths: &mut [u16],
    p: Packer,
)
    requires mtu_bound { mtu ≤ 1500 }
    requires n_in_bounds { 2 * n ≤ length acks.now }
    requires n_bound { n ≤ 4096 }
    requires waiting_len { length waiting.old ≡ 1500 }
    requires held_bound { held ≤ 1500 }
    requires p_value { p ≡ sized mtu (holding held) (replicate n 24) }
    requires start_in_bounds { p.start ≤ length out.old }
    requires count_in_bounds { p.count ≤ length lengths.old }
    ensures { writing waiting.new out.new lengths.new
        ≡ put_out (pack mtu (take held waiting.old) (ack_bytes told (acks_of acks.now n))) (writing waiting.old out.old lengths.old) }
{
    if p.count == 0 {
        put_acks(told, acks, 0, n, waiting, held);
        return;
    }
    let sent = n - p.used / wire::OVERHEAD;
    put_waiting(waiting, held, out);
    put_acks(told, acks, 0, sent, out, held);
    put_acks(told, acks, sent, n, waiting, 0);
    acks_cut(Packer::new(held), mtu, n, lengths);
}

// The first n acks of the list, packed behind the first `held` of the waiting bytes. Refused by 13, which leaves all.
pub fn flush_ack(
    told: Told,
    mtu: usize,
    acks: &[u32],
    n: usize,
    waiting: &mut [u8],
    held: usize,
    out: &mut [u8],
    lengths: &mut [u16],
) -> Result<Sent, Refusal>
    requires mtu_bound { mtu ≤ 1500 }
    requires n_in_bounds { 2 * n ≤ length acks.now }
    requires n_bound { n ≤ 4096 }
    requires waiting_len { length waiting.old ≡ 1500 }
    requires held_bound { held ≤ 1500 }
    ensures { (result, writing waiting.new out.new lengths.new)
        ≡ flush_ack_at told mtu acks.now n held (writing waiting.old out.old lengths.old) }
{
    let p = flush_ack_sizes(mtu, n, held);
    if out.len() < p.start || lengths.len() < p.count {
        return Err(Refusal::OutTooSmall);
    }
    flush_ack_write(told, mtu, acks, n, waiting, held, out, lengths, p);
    Ok(Sent {
        datagrams: p.count,
        waiting: p.used,
    })
}

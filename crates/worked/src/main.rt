// The worked values of 01 that are run: each row calls the port, and writes what was called and the number of its refusal, 0 where there is
// none. The file stdout has the same lines, written from 01. Each group of rows is a function over the fresh block.
#![tactic(auto)]

ghost use Rattle.std.specs.Prelude.{◌≡◌, ◌≤◌, ◌++◌, length, get_or, drop};
ghost use Rattle.serial.specs.Branch.{pick};
ghost use Rattle.ring.specs.Lists.{lists};
ghost use Rattle.wire.specs.Header.{header_bytes};
ghost use Rattle.block.specs.Refusals.{number_of_answer, values_of_count};
ghost use Rattle.block.specs.Sizes.{mtu_size};
ghost use Rattle.kcp_receive.specs.Calls.{wndsize_number};
ghost use Rattle.kcp_input.specs.Input.{input_of, input_number};
ghost use Rattle.recorded.specs.Memory.{memory_of, Kept};

use block::Kcp;
use block::refusal::{Refusal, number_of};
use recorded::memory::LentMemory;
use recorded::sums::filled;
use std::fmt::Display;
use std::io;
use wire::Header;

// A line: what the number is, and the number.
fn write_line(rt: &impl Print, what: &str, number: impl Display + Drop) -> io::Result<()> {
    println!(rt; "{what}: {number}")
}

// The number of what set_wndsize answers.
fn wndsize_number(block: Kcp, sndwnd: u16, rcvwnd: u16, records: &[u32], room: &[u8]) -> u32
    ensures { result ≡ wndsize_number block (lists records.now room.now) rcvwnd }
{
    number_of(kcp_receive::set_wndsize(block, sndwnd, rcvwnd, records, room).answer)
}

// The number of what set_mtu answers.
fn mtu_number(block: Kcp, mtu: usize) -> u32
    ensures { result ≡ pick (mtu_size mtu) 0 10 }
{
    number_of(block.set_mtu(mtu).answer)
}

// What input answers.
fn heard(block: Kcp, lent: &mut LentMemory, datagram: &[u8]) -> Result<usize, Refusal>
    ensures value { let m = memory_of block lent.old in result ≡ (input_of block m.rcv m.acks m.waiting m.snd datagram.now).answer }
    ensures result_value { let m = memory_of block lent.old in number_of_answer result ≡ input_number block m.rcv m.acks m.waiting m.snd datagram.now }
    ensures kept { Kept lent.old lent.new }
{
    let rcv_records = &mut *lent.rcv_records;
    let rcv_room = &mut *lent.rcv_room;
    let snd_records = &mut *lent.snd_records;
    let snd_room = &mut *lent.snd_room;
    let acks = &mut *lent.acks;
    let waiting = &mut *lent.waiting;
    let out = kcp_input::input(
        block,
        rcv_records,
        rcv_room,
        snd_records,
        snd_room,
        acks,
        waiting,
        datagram,
    );
    out.answer
}

// The bytes that it counts, or the first value of its refusal.
fn bytes_count(answer: Result<usize, Refusal>) -> usize
    ensures { result ≡ get_or (values_of_count answer) 0 0 }
{
    answer.unwrap_or_else(|why| why.values().first)
}

// Puts a header in front of the bytes that follow it.
#[tactic(auto, unfolding(wire::specs::Header::header_bytes))]
fn put_header(datagram: &mut [u8], header: Header)
    requires { 24 ≤ length datagram.old }
    ensures { datagram.new ≡ header_bytes header ++ drop 24 datagram.old }
{
    datagram[..wire::OVERHEAD].copy_from_slice(&header.bytes());
}

// "R = 256: rcvwnd 128 passes, 129 gets 14."
fn window_rows(rt: &impl Print, block: Kcp, lent: &LentMemory) -> io::Result<()> {
    for rcvwnd in [128u16, 129] {
        let number = wndsize_number(block, 0, rcvwnd, lent.rcv_records, lent.rcv_room);
        println!(rt; "R = 256, set_wndsize(0, {rcvwnd}): {number}")?;
    }
    Ok(())
}

// "Input of 1,500 bytes is read, 1,501 gets 11": the first 1,500 bytes of the datagram, and all 1,501.
fn input_rows(rt: &impl Print, block: Kcp, lent: &mut LentMemory, datagram: &[u8]) -> io::Result<()>
    requires { 1501 ≡ length datagram.now }
{
    let read = heard(block, lent, &datagram[..1500]);
    write_line(rt, "input of 1500 bytes", number_of(read))?;
    write_line(rt, "its bytes consumed", bytes_count(read))?;
    let longer = heard(block, lent, datagram);
    write_line(rt, "input of 1501 bytes", number_of(longer))
}

// "mtu 49 and 1,501 get 10", and the ends that pass.
fn mtu_rows(rt: &impl Print, block: Kcp) -> io::Result<()> {
    for mtu in [49usize, 50, 1500, 1501] {
        println!(rt; "set_mtu({mtu}): {}", mtu_number(block, mtu))?;
    }
    Ok(())
}

// One update: its number, how many datagrams went out, and where the clock and the next flush then stand.
fn update_row(
    rt: &impl Print,
    called: &str,
    block: Kcp,
    current: u32,
    lent: &mut LentMemory,
) -> io::Result<Kcp> {
    let snd_records = &mut *lent.snd_records;
    let snd_room = &mut *lent.snd_room;
    let acks = &mut *lent.acks;
    let waiting = &mut *lent.waiting;
    let mut out = [0u8; 64];
    let mut lengths = [0u16; 4];
    let updated = kcp_flush::update(
        block,
        current,
        snd_records,
        snd_room,
        acks,
        waiting,
        &mut out,
        &mut lengths,
    );
    let clock = updated.block.clock;
    write_line(rt, called, number_of(updated.answer))?;
    write_line(rt, "its datagrams", updated.datagrams)?;
    write_line(rt, "the clock then", clock.current)?;
    write_line(rt, "ts_flush then", clock.ts_flush)?;
    Ok(updated.block)
}

// The first update opens the window for one segment and sets ts_flush to 20,100; "hi" then waits for a flush.
fn hi_waits(rt: &impl Print, block: Kcp, lent: &mut LentMemory) -> io::Result<Kcp> {
    let first = update_row(rt, "update(20000), the first", block, 20000, lent)?;
    let sent = kcp_send::send(first, lent.snd_records, lent.snd_room, b"hi");
    Ok(sent.block)
}

// "Updated block, clock 10,000 before ts_flush: update only stores the time. 10,001 before: ts_flush restarts and a flush runs."
fn clock_rows(rt: &impl Print, block: Kcp, lent: &mut LentMemory) -> io::Result<()> {
    let stored = update_row(
        rt,
        "update(10100), 10000 before ts_flush",
        block,
        10100,
        lent,
    )?;
    update_row(
        rt,
        "update(10099), 10001 before ts_flush",
        stored,
        10099,
        lent,
    )?;
    Ok(())
}

// A push of the longest payload, its bytes 0, and one byte more.
fn datagram() -> [u8; 1501]
    ensures { 1501 ≡ length result }
{
    let mut out: [u8; 1501] = filled(0);
    put_header(
        &mut out,
        Header {
            conv: 1,
            cmd: wire::PUSH,
            frg: 0,
            wnd: 128,
            ts: 0,
            sn: 0,
            una: 0,
            len: 1476,
        },
    );
    out
}

// A fresh block over the memory lent.
fn fresh(lent: &LentMemory) -> Result<Kcp, Refusal> {
    Kcp::new(
        1,
        lent.rcv_records,
        lent.rcv_room,
        lent.snd_records,
        lent.snd_room,
        lent.acks,
        lent.waiting,
    )
}

// The rows over a fresh block, and those of the clock over another.
fn rows(rt: &impl Print, lent: &mut LentMemory) -> io::Result<()> {
    let Ok(block) = fresh(lent) else {
        return println!(rt; "no block");
    };
    window_rows(rt, block, lent)?;
    input_rows(rt, block, lent, &datagram())?;
    mtu_rows(rt, block)?;
    let Ok(block) = fresh(lent) else {
        return println!(rt; "no block");
    };
    let waits = hi_waits(rt, block, lent)?;
    clock_rows(rt, waits, lent)
}

// The payloads of 256 receive slots and of 128 send slots.
const RECEIVE_ROOM: usize = 377856;

const SEND_ROOM: usize = 188928;

// R = 256, P = 128 and A = 128.
fn main(rt: HostRuntime) -> io::Result<()> {
    let mut rcv_room: [u8; RECEIVE_ROOM] = filled(0);
    let mut snd_room: [u8; SEND_ROOM] = filled(0);
    let mut lent = LentMemory {
        rcv_records: &mut [0; 256],
        rcv_room: &mut rcv_room,
        snd_records: &mut [0; 1152],
        snd_room: &mut snd_room,
        acks: &mut [0; 256],
        waiting: &mut [0; 1500],
    };
    rows(&rt, &mut lent)
}

// The calls that change lent memory, made on the port.
ghost use Rattle.std.specs.Prelude.{◌≡◌, length, Option, None};
ghost use Rattle.ring.specs.Lists.{lists};
ghost use Rattle.snd_ring.specs.Store.{store_of};
ghost use Rattle.packing.specs.FlushAck.{writing};
ghost use Rattle.kcp_send.specs.Send.{send_of};
ghost use Rattle.recorded.specs.Sums.{rising};
ghost use Rattle.recorded.specs.Answers.{of_count, of_out};
ghost use Rattle.recorded.specs.Memory.{memory_of, Kept};
ghost use Rattle.recorded.specs.Looks.{made};
ghost use Rattle.recorded.specs.Calls.{left, with_acked, with_flushed, input_step, by_send, send_step, flush_ack_step, flushed_of, flush_step, play_of};

use crate::answers::{answered, of_out};
use crate::looks::{Made, looked, unplayed};
use crate::memory::LentMemory;
use crate::rows::{Call, Row};
use crate::sums::{fill, filled, sum_of};
use block::Kcp;
use input::Outcome;
use kcp_send::Sent;
use output::Out;

// The longest message.
const MESSAGE: usize = 4096;

// The bytes and the lengths that datagrams go out into.
const OUT: usize = 16384;

const LENGTHS: usize = 1024;

// What a call left, with its answer as the numbers of a step; that of input goes with the skipped pushes.
fn by_input(out: Outcome) -> Made
    ensures { result ≡ made out.block (of_count out.answer out.skipped) }
{
    Made {
        block: out.block,
        answer: answered(out.answer, out.skipped),
    }
}

// That of send.
fn by_send(out: Sent) -> Made
    ensures { result ≡ made out.block (of_count out.answer 0) }
{
    Made {
        block: out.block,
        answer: answered(out.answer, 0),
    }
}

// That of flush_ack, flush and update goes with the sums of what they put out.
fn by_out(out: Out, lengths: u32, sum: u32) -> Made
    ensures { result ≡ made out.block (of_out out.answer out.datagrams lengths sum) }
{
    Made {
        block: out.block,
        answer: of_out(out.answer, out.datagrams, lengths, sum),
    }
}

// One datagram, over the memory lent.
fn input_step(block: Kcp, datagram: &[u8], lent: &mut LentMemory) -> Made
    ensures is { left result lent.new ≡ input_step (memory_of block lent.old) datagram.now }
    ensures kept { Kept lent.old lent.new }
{
    let rcv_records = &mut *lent.rcv_records;
    let rcv_room = &mut *lent.rcv_room;
    let snd_records = &mut *lent.snd_records;
    let snd_room = &mut *lent.snd_room;
    let acks = &mut *lent.acks;
    let waiting = &mut *lent.waiting;
    by_input(kcp_input::input(
        block,
        rcv_records,
        rcv_room,
        snd_records,
        snd_room,
        acks,
        waiting,
        datagram,
    ))
}

// Sends the message that `message` is filled with.
fn send_in(
    block: Kcp,
    byte: u8,
    snd_records: &mut [u32],
    snd_room: &mut [u8],
    message: &mut [u8],
) -> Made
    ensures { record { block = result.block; answer = result.answer; snd = lists snd_records.new snd_room.new }
        ≡ by_send (send_of block (lists snd_records.old snd_room.old) (rising byte (length message.old))) }
{
    fill(message, byte);
    by_send(kcp_send::send(block, snd_records, snd_room, message))
}

// Sends a message of so many bytes, if it is none too long.
fn send_step(block: Kcp, row: Row, snd_records: &mut [u32], snd_room: &mut [u8]) -> Made
    ensures { record { block = result.block; answer = result.answer; snd = lists snd_records.new snd_room.new } ≡ send_step row block (lists snd_records.old snd_room.old) }
{
    let len = row.a as usize;
    if MESSAGE < len {
        return unplayed(block);
    }
    let mut message: [u8; MESSAGE] = filled(0);
    send_in(
        block,
        (row.b % 256) as u8,
        snd_records,
        snd_room,
        &mut message[..len],
    )
}

// flush_ack, into buffers of its own.
fn flush_ack_step(block: Kcp, acks: &[u32], waiting: &mut [u8]) -> Made
    ensures { record { block = result.block; answer = result.answer; waiting = waiting.new } ≡ flush_ack_step block acks.now waiting.old }
{
    let mut out: [u8; OUT] = filled(0);
    let mut lengths: [u16; LENGTHS] = filled(0);
    let sent = kcp_flush::flush_ack(block, acks, waiting, &mut out, &mut lengths);
    by_out(sent, sum_of(&lengths), sum_of(&out))
}

// update at a time, or flush where none is given: the calls that were recorded, and not the one turn that both are.
#[tactic(auto, unfolding(crate::specs::Calls::flushed_of))]
fn flushed(
    block: Kcp,
    current: Option<u32>,
    snd_records: &mut [u32],
    snd_room: &[u8],
    acks: &[u32],
    waiting: &[u8],
    out: &mut [u8],
    lengths: &mut [u16],
) -> Out
    ensures { record {
      out = record { block = result.block; answer = result.answer; datagrams = result.datagrams; written = writing waiting.now out.new lengths.new };
      store = store_of 8 (lists snd_records.new snd_room.now);
    } ≡ flushed_of current block (lists snd_records.old snd_room.now) acks.now (writing waiting.now out.old lengths.old) }
{
    match current {
        Some(current) => kcp_flush::update(
            block,
            current,
            snd_records,
            snd_room,
            acks,
            waiting,
            out,
            lengths,
        ),
        None => kcp_flush::flush(block, snd_records, snd_room, acks, waiting, out, lengths),
    }
}

// The same into buffers of its own. Inlined, as `update_step` is, so that these lie where those of the other calls do, and a program that lends its
// memory on the stack needs no room for both.
#[inline(always)]
fn flush_step(
    block: Kcp,
    current: Option<u32>,
    snd_records: &mut [u32],
    snd_room: &[u8],
    acks: &[u32],
    waiting: &[u8],
) -> Made
    ensures { record { block = result.block; answer = result.answer; waiting = waiting.now; snd = lists snd_records.new snd_room.now }
        ≡ flush_step current block (lists snd_records.old snd_room.now) acks.now waiting.now }
{
    let mut out: [u8; OUT] = filled(0);
    let mut lengths: [u16; LENGTHS] = filled(0);
    let sent = flushed(
        block,
        current,
        snd_records,
        snd_room,
        acks,
        waiting,
        &mut out,
        &mut lengths,
    );
    by_out(sent, sum_of(&lengths), sum_of(&out))
}

// flush_ack over the memory lent.
fn ack_step(block: Kcp, lent: &mut LentMemory) -> Made
    ensures is { let m = memory_of block lent.old in left result lent.new ≡ with_acked m (flush_ack_step block m.acks m.waiting) }
    ensures kept { Kept lent.old lent.new }
{
    let acks = &mut *lent.acks;
    let waiting = &mut *lent.waiting;
    flush_ack_step(block, acks, waiting)
}

// update at a time, or flush where none is given, over the memory lent.
#[inline(always)]
fn update_step(block: Kcp, current: Option<u32>, lent: &mut LentMemory) -> Made
    ensures is { let m = memory_of block lent.old in left result lent.new ≡ with_flushed m (flush_step current block m.snd m.acks m.waiting) }
    ensures kept { Kept lent.old lent.new }
{
    let snd_records = &mut *lent.snd_records;
    let snd_room = &mut *lent.snd_room;
    let acks = &mut *lent.acks;
    let waiting = &mut *lent.waiting;
    flush_step(block, current, snd_records, snd_room, acks, waiting)
}

// The call that the step names.
#[tactic(auto, unfolding(crate::specs::Calls::play_of, crate::specs::Calls::played))]
pub fn make(block: Kcp, row: Row, handed: &[u8], lent: &mut LentMemory) -> Made
    ensures is { left result lent.new ≡ play_of row handed.now (memory_of block lent.old) }
    ensures kept { Kept lent.old lent.new }
{
    let Some(call) = row.call() else {
        return unplayed(block);
    };
    match call {
        Call::Input => input_step(block, handed, lent),
        Call::Send => send_step(block, row, lent.snd_records, lent.snd_room),
        Call::FlushAck => ack_step(block, lent),
        Call::Flush => update_step(block, None, lent),
        Call::Update => update_step(block, Some(row.a), lent),
        Call::Look(look) => looked(block, look, row, handed, lent),
    }
}

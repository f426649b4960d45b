// The public calls flush_ack, flush, update and check: each tests the block and what it is lent, and then acts or changes nothing.
// The lists are handed one by one, as C hands them, each shared or unique as the call needs it: one struct of all six would ask callers for unique access
// to those that are only read.
#![tactic(auto)]

ghost use Rattle.std.specs.Prelude.{◌≡◌, not, ◌&&◌};
ghost use Rattle.std.specs.Option.{is_none};
ghost use Rattle.ring.specs.Lists.{lists};
ghost use Rattle.snd_ring.specs.Store.{store_of};
ghost use Rattle.packing.specs.FlushAck.{writing};
ghost use Rattle.kcp_flush.specs.Calls.{ack_fits, flush_fits, FlushesAck, tick_of, turn_of, Flushes, Updates, Checks};

use block::Kcp;
use block::clock::Clock;
use block::refusal::Refusal;
use flushing::clock::{Tick, ticked};
use output::Out;

// A refused call: all as it was, and no datagram.
fn unsent(block: Kcp, why: Refusal) -> Out
    ensures { result ≡ record { block = block; answer = Err why; datagrams = 0 } }
{
    Out {
        block,
        answer: Err(why),
        datagrams: 0,
    }
}

// Whether block and ack memory are well formed.
#[tactic(auto, unfolding(crate::specs::Calls::ack_fits))]
fn ack_fits(block: Kcp, acks: &[u32], waiting: &[u8]) -> bool
    ensures { result ≡ ack_fits block acks.now waiting.now }
{
    block.own_numbers() && block.acklist.lent_fits(acks, waiting)
}

// Whether block, send memory and ack memory are well formed.
#[tactic(auto, unfolding(crate::specs::Calls::flush_fits, transmit::specs::Fits::send_fits))]
fn flush_fits(block: Kcp, records: &[u32], room: &[u8], acks: &[u32], waiting: &[u8]) -> bool
    ensures { result ≡ flush_fits block (lists records.now room.now) acks.now waiting.now }
{
    transmit::fits(block.own_numbers(), block.sender, records, room)
        && block.acklist.lent_fits(acks, waiting)
}

// Puts the acks out behind the bytes that wait; the last bytes stay waiting. Refused by 15, 9 or 13, which leave all.
pub fn flush_ack(
    block: Kcp,
    acks: &[u32],
    waiting: &mut [u8],
    out: &mut [u8],
    lengths: &mut [u16],
) -> Out
    ensures { FlushesAck block acks.now (writing waiting.old out.old lengths.old)
        (record { block = result.block; answer = result.answer; datagrams = result.datagrams; written = writing waiting.new out.new lengths.new }) }
{
    if !ack_fits(block, acks, waiting) {
        return unsent(block, Refusal::BadPool);
    }
    if !block.clock.updated {
        return unsent(block, Refusal::NeedUpdate);
    }
    output::flush_ack(block, acks, waiting, out, lengths)
}

// The clock of a flush, which is as it is, or of an update, which sets it.
fn tick_of(clock: Clock, time: Option<u32>) -> Tick
    ensures { result ≡ tick_of clock time }
{
    match time {
        Some(current) => ticked(clock, current),
        None => Tick {
            clock,
            flushes: true,
        },
    }
}

// Whether a call comes before any update that has to come after one.
fn early(time: Option<u32>, updated: bool) -> bool
    ensures { result ≡ (is_none time && not updated) }
{
    time.is_none() && !updated
}

// An update to that time, or a flush where none is given: one function, so that it is compiled into its caller with all that it calls, and the block is
// never laid out in memory.
pub fn turn(
    block: Kcp,
    time: Option<u32>,
    records: &mut [u32],
    room: &[u8],
    acks: &[u32],
    waiting: &[u8],
    out: &mut [u8],
    lengths: &mut [u16],
) -> Out
    ensures { record {
      out = record { block = result.block; answer = result.answer; datagrams = result.datagrams; written = writing waiting.now out.new lengths.new };
      store = store_of 8 (lists records.new room.now);
    }
        ≡ turn_of block (lists records.old room.now) acks.now (writing waiting.now out.old lengths.old) time }
{
    if !flush_fits(block, records, room, acks, waiting) {
        return unsent(block, Refusal::BadPool);
    }
    let clock = block.clock;
    if early(time, clock.updated) {
        return unsent(block, Refusal::NeedUpdate);
    }
    let tick = tick_of(clock, time);
    output::turn(block, tick, records, room, acks, waiting, out, lengths)
}

// Puts out what waits, the acks, the probes, and the segments that are fresh or to be resent. Refused by 15, 9 or 13, which leave all.
pub fn flush(
    block: Kcp,
    records: &mut [u32],
    room: &[u8],
    acks: &[u32],
    waiting: &[u8],
    out: &mut [u8],
    lengths: &mut [u16],
) -> Out
    ensures { Flushes block (lists records.old room.now) acks.now (writing waiting.now out.old lengths.old)
        (record {
          out = record { block = result.block; answer = result.answer; datagrams = result.datagrams; written = writing waiting.now out.new lengths.new };
          store = store_of 8 (lists records.new room.now);
        }) }
{
    turn(block, None, records, room, acks, waiting, out, lengths)
}

// Sets the clock, and flushes where a flush is due. Refused by 15 or 13, which leave all, the clock too.
pub fn update(
    block: Kcp,
    current: u32,
    records: &mut [u32],
    room: &[u8],
    acks: &[u32],
    waiting: &[u8],
    out: &mut [u8],
    lengths: &mut [u16],
) -> Out
    ensures { Updates block (lists records.old room.now) acks.now (writing waiting.now out.old lengths.old) current
        (record {
          out = record { block = result.block; answer = result.answer; datagrams = result.datagrams; written = writing waiting.now out.new lengths.new };
          store = store_of 8 (lists records.new room.now);
        }) }
{
    turn(
        block,
        Some(current),
        records,
        room,
        acks,
        waiting,
        out,
        lengths,
    )
}

// How long until the next update, in milliseconds. Refused by 15.
pub fn check(block: Kcp, current: u32, records: &[u32], room: &[u8]) -> Result<u32, Refusal>
    ensures { Checks block (lists records.now room.now) current result }
{
    if !transmit::fits(block.own_numbers(), block.sender, records, room) {
        return Err(Refusal::BadPool);
    }
    Ok(output::check(block, current, records, room))
}

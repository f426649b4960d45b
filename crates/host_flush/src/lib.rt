// flush_ack, flush, update and check of a block that a host keeps as words. The lists are handed one by one and the answers are numbers, as kcp_c exports them.
#![tactic(auto)]

ghost use Rattle.std.specs.Prelude.{◌≡◌, eqb, length};
ghost use Rattle.serial.specs.Branch.{pick};
ghost use Rattle.words.specs.Words.{with_turn_words, with_sent_words};
ghost use Rattle.ring.specs.Lists.{lists};
ghost use Rattle.snd_ring.specs.Store.{store_of};
ghost use Rattle.packing.specs.FlushAck.{writing};
ghost use Rattle.kcp_flush.specs.Calls.{flush_ack_of, flush_of, update_of, turn_of};
ghost use Rattle.host_flush.specs.Words.{count_in, wait_in, WordsOut, WordsFlushed, WordsChecked};
ghost use Rattle.block.specs.Refusals.{number_of_answer};

use block::Kcp;
use block::refusal::{Refusal, number_of};
use block::sizes::ack_sizes;

// The datagrams of a call that is done, or n where it is refused: a match, since map_or with a closure that ignores its argument is no plainer.
fn count_in(n: usize, answer: Result<(), Refusal>, datagrams: usize) -> usize
    ensures { result ≡ count_in n answer datagrams }
{
    match answer {
        Ok(()) => datagrams,
        Err(_) => n,
    }
}

// Puts the acks out, and how many datagrams that was into `datagrams`. 0, or 9, 13 or 15, which leave all.
pub fn flush_ack(
    words: &mut [u32],
    acks: &[u32],
    waiting: &mut [u8],
    out: &mut [u8],
    lengths: &mut [u16],
    datagrams: &mut usize,
) -> u32
    ensures { WordsOut (λ k. flush_ack_of k acks.now (writing waiting.old out.old lengths.old)) (writing waiting.old out.old lengths.old) words.old datagrams.old
        (record { number = result; datagrams = datagrams.new; words = words.new; written = writing waiting.new out.new lengths.new }) }
{
    let Some(block) = words::block_in(words) else {
        return words::NO_BLOCK;
    };
    let left = kcp_flush::flush_ack(block, acks, waiting, out, lengths);
    words::write(left.block, words);
    *datagrams = count_in(*datagrams, left.answer, left.datagrams);
    number_of(left.answer)
}

// Writes the block that a flush or an update leaves: the words that it can have changed.
fn put_left(block: Kcp, datagrams: usize, words: &mut [u32])
    requires { length words.old ≡ 35 }
    ensures { words.new ≡ pick (eqb datagrams 0) (with_turn_words block words.old) (with_sent_words block words.old) }
{
    if datagrams == 0 {
        words::put_turned(block, words);
        return;
    }
    words::put_sent(block, words);
}

// An update to that time, or a flush where none is given; one function for both, so that the block is read out of the words there and never laid out
// in memory. Its callers test the sizes of the ack memory before, while they hold them: what they hand on unseen is copied two numbers at a time, which
// waits for their own caller's writes.
fn turn(
    words: &mut [u32],
    time: Option<u32>,
    records: &mut [u32],
    room: &[u8],
    acks: &[u32],
    waiting: &[u8],
    out: &mut [u8],
    lengths: &mut [u16],
    datagrams: &mut usize,
) -> u32
    ensures { WordsFlushed (λ k. turn_of k (lists records.old room.now) acks.now (writing waiting.now out.old lengths.old) time) (lists records.old room.now) (writing waiting.now out.old lengths.old) words.old datagrams.old
        (record { number = result; datagrams = datagrams.new; words = words.new; written = writing waiting.now out.new lengths.new }) (store_of 8 (lists records.new room.now)) }
{
    let Some(block) = words::block_in(words) else {
        return words::NO_BLOCK;
    };
    let left = kcp_flush::turn(block, time, records, room, acks, waiting, out, lengths);
    put_left(left.block, left.datagrams, words);
    *datagrams = count_in(*datagrams, left.answer, left.datagrams);
    number_of(left.answer)
}

// Puts all out that waits or is due, and how many datagrams that was into `datagrams`. 0, or 9, 13 or 15, which leave all.
pub fn flush(
    words: &mut [u32],
    records: &mut [u32],
    room: &[u8],
    acks: &[u32],
    waiting: &[u8],
    out: &mut [u8],
    lengths: &mut [u16],
    datagrams: &mut usize,
) -> u32
    ensures { WordsFlushed (λ k. flush_of k (lists records.old room.now) acks.now (writing waiting.now out.old lengths.old)) (lists records.old room.now) (writing waiting.now out.old lengths.old) words.old datagrams.old
        (record { number = result; datagrams = datagrams.new; words = words.new; written = writing waiting.now out.new lengths.new }) (store_of 8 (lists records.new room.now)) }
{
    if !ack_sizes(acks.len(), waiting.len()) {
        return words::NO_BLOCK;
    }
    turn(
        words, None, records, room, acks, waiting, out, lengths, datagrams,
    )
}

// Sets the clock, and flushes where a flush is due. 0, or 13 or 15, which leave all, the clock too.
pub fn update(
    words: &mut [u32],
    current: u32,
    records: &mut [u32],
    room: &[u8],
    acks: &[u32],
    waiting: &[u8],
    out: &mut [u8],
    lengths: &mut [u16],
    datagrams: &mut usize,
) -> u32
    ensures { WordsFlushed (λ k. update_of k (lists records.old room.now) acks.now (writing waiting.now out.old lengths.old) current) (lists records.old room.now) (writing waiting.now out.old lengths.old) words.old datagrams.old
        (record { number = result; datagrams = datagrams.new; words = words.new; written = writing waiting.now out.new lengths.new }) (store_of 8 (lists records.new room.now)) }
{
    if !ack_sizes(acks.len(), waiting.len()) {
        return words::NO_BLOCK;
    }
    turn(
        words,
        Some(current),
        records,
        room,
        acks,
        waiting,
        out,
        lengths,
        datagrams,
    )
}

// How long until the next update, put into `wait`. 0, or 15, which leaves it.
pub fn check(words: &[u32], current: u32, records: &[u32], room: &[u8], wait: &mut u32) -> u32
    ensures { WordsChecked (lists records.now room.now) current words.now wait.old result wait.new }
{
    let Some(block) = words::block_in(words) else {
        return words::NO_BLOCK;
    };
    let answer = kcp_flush::check(block, current, records, room);
    *wait = answer.unwrap_or(*wait);
    number_of(answer)
}

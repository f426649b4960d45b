// The calls that are handed the receive memory, over a block that a host keeps as words. Words that are no block are refused by 15, which leaves all.
// Each writes the words that it may change.
#![tactic(auto)]

ghost use Rattle.std.specs.Prelude.{◌≡◌};
ghost use Rattle.ring.specs.Lists.{lists};
ghost use Rattle.kcp_receive.specs.Calls.{move_buf_of, set_wndsize_of};
ghost use Rattle.host_receive.specs.Words.{Called, length_in, WordsPeeked, WordsReceived};
ghost use Rattle.block.specs.Refusals.{number_of_answer};

use block::refusal::number_of;

// Moves held segments to the queue. 0, or 15.
pub fn move_buf(words: &mut [u32], records: &[u32], room: &[u8]) -> u32
    ensures { Called (λ k. move_buf_of k (lists records.now room.now)) words.old result words.new }
{
    let Some(block) = words::block_in(words) else {
        return words::NO_BLOCK;
    };
    let out = kcp_receive::move_buf(block, records, room);
    words::put_receiver(out.block.receiver, words);
    number_of(out.answer)
}

// Sets both windows. 0, or 14 or 15.
pub fn set_wndsize(words: &mut [u32], sndwnd: u16, rcvwnd: u16, records: &[u32], room: &[u8]) -> u32
    ensures { Called (λ k. set_wndsize_of k (lists records.now room.now) sndwnd rcvwnd) words.old result words.new }
{
    let Some(block) = words::block_in(words) else {
        return words::NO_BLOCK;
    };
    let out = kcp_receive::set_wndsize(block, sndwnd, rcvwnd, records, room);
    words::put_windows(out.block, words);
    number_of(out.answer)
}

// The length of the message at the front of the queue, put into `length`. 0, or 5, 6 or 15, which leave it.
pub fn peeksize(words: &[u32], records: &[u32], room: &[u8], length: &mut usize) -> u32
    ensures { WordsPeeked (lists records.now room.now) words.now length.old result length.new }
{
    let Some(block) = words::block_in(words) else {
        return words::NO_BLOCK;
    };
    let answer = kcp_receive::peeksize(block, records, room);
    *length = answer.unwrap_or(*length);
    number_of(answer)
}

// Hands the message at the front of the queue out into `buf`, and puts its length into `length`. 0, or 5, 6, 7 or 15, which leave all.
pub fn recv(
    words: &mut [u32],
    records: &[u32],
    room: &[u8],
    buf: &mut [u8],
    length: &mut usize,
) -> u32
    ensures { WordsReceived (lists records.now room.now) buf.old words.old length.old result
        buf.new words.new length.new }
{
    let Some(block) = words::block_in(words) else {
        return words::NO_BLOCK;
    };
    let out = kcp_receive::recv(block, records, room, buf);
    let Ok(n) = out.answer else {
        return number_of(out.answer);
    };
    words::put_receiver(out.block.receiver, words);
    words::put_word(words, words::PROBE_BITS, out.block.probe.bits);
    *length = n;
    words::DONE
}

// The call that is handed the send memory, over a block that a host keeps as words. Words that are no block are refused by 15, which leaves all. Of the
// words it writes those of the ring alone: a send changes no others.
#![tactic(auto)]

ghost use Rattle.std.specs.Prelude.{◌≡◌};
ghost use Rattle.ring.specs.Lists.{lists};
ghost use Rattle.snd_ring.specs.Store.{store_of};
ghost use Rattle.host_send.specs.Words.{count_in, WordsSent};
ghost use Rattle.block.specs.Refusals.{number_of_answer};

use block::refusal::number_of;

// Queues the bytes, and puts their count into `queued`. 0, or 8, 12 or 15, which leave it; 12 and 15 leave all, and 8 all but what joined the
// last segment of a stream.
pub fn send(
    words: &mut [u32],
    records: &mut [u32],
    room: &mut [u8],
    bytes: &[u8],
    queued: &mut usize,
) -> u32
    ensures { WordsSent (lists records.old room.old) bytes.now words.old queued.old result
        (store_of 8 (lists records.new room.new)) words.new queued.new }
{
    let Some(block) = words::block_in(words) else {
        return words::NO_BLOCK;
    };
    let out = kcp_send::send(block, records, room, bytes);
    words::put_snd_ring(out.block.sender.ring, words);
    *queued = out.answer.unwrap_or(*queued);
    number_of(out.answer)
}

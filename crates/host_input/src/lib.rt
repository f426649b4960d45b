// One datagram into a block that a host keeps as words. The lists are handed one by one and the answer is a number, as kcp_c exports them.
#![tactic(auto)]

ghost use Rattle.std.specs.Prelude.{◌≡◌};
ghost use Rattle.ring.specs.Lists.{lists};
ghost use Rattle.snd_ring.specs.Store.{store_of};
ghost use Rattle.host_input.specs.Words.{values_in, WordsRead};
ghost use Rattle.block.specs.Refusals.{number_of_answer};

use block::refusal::{Refusal, number_of};

// The two values of an answer: the count, or what goes with the refusal, and 0 where there is none.
fn values_in(answer: Result<usize, Refusal>) -> [usize; 2]
    ensures { result ≡ values_in answer }
{
    match answer {
        Ok(count) => [count, 0],
        Err(why) => {
            let row = why.values();
            [row.first, row.second]
        }
    }
}

// One datagram. 0, and then `values` are the bytes consumed and 0; or 15, 11 or 1, which leave all, or 2, 3 or 4, which leave what the segments
// before the refused one did, and after 3 and 4 the conv adopted, and then they are what goes with the refusal. `skipped` gets how many pushes
// were skipped.
pub fn input(
    words: &mut [u32],
    rcv_records: &mut [u32],
    rcv_room: &mut [u8],
    snd_records: &mut [u32],
    snd_room: &[u8],
    acks: &mut [u32],
    waiting: &[u8],
    datagram: &[u8],
    values: &mut [usize; 2],
    skipped: &mut u32,
) -> u32
    ensures { WordsRead (lists rcv_records.old rcv_room.old) acks.old waiting.now (lists snd_records.old snd_room.now) datagram.now words.old
        (record { number = result; values = values.new; skipped = skipped.new; words = words.new; rcv = lists rcv_records.new rcv_room.new; acks = acks.new; snd = store_of 8 (lists snd_records.new snd_room.now) }) }
{
    let Some(block) = words::block_in(words) else {
        *values = [0, 0];
        *skipped = 0;
        return words::NO_BLOCK;
    };
    let out = kcp_input::input(
        block,
        rcv_records,
        rcv_room,
        snd_records,
        snd_room,
        acks,
        waiting,
        datagram,
    );
    words::write(out.block, words);
    *values = values_in(out.answer);
    *skipped = out.skipped;
    number_of(out.answer)
}

// The public call send: it tests the block and the send memory, and then queues or changes nothing.
#![tactic(auto)]

ghost use Rattle.ring.specs.Lists.{lists};
ghost use Rattle.snd_ring.specs.Store.{store_of};
ghost use Rattle.kcp_send.specs.Send.{Sends};

use block::Kcp;
use block::refusal::Refusal;

// The block after a send, and its answer.
#[derive(Clone, Copy)]
pub struct Sent {
    pub block: Kcp,
    pub answer: Result<usize, Refusal>,
}

// Queues the bytes, and answers how many. Refused by 15, which leaves all, by 8, which leaves what joined the last segment of a stream, or by
// 12, which leaves all.
pub fn send(block: Kcp, records: &mut [u32], room: &mut [u8], bytes: &[u8]) -> Sent
    ensures { Sends block (lists records.old room.old) bytes.now
        (record { block = result.block; answer = result.answer; store = store_of 8 (lists records.new room.new) }) }
{
    if !transmit::fits(block.own_numbers(), block.sender, records, room) {
        return Sent {
            block,
            answer: Err(Refusal::BadPool),
        };
    }
    let settings = block.settings;
    let out = send::send(
        block.sender,
        settings.mss,
        settings.stream,
        records,
        room,
        bytes,
    );
    Sent {
        block: Kcp {
            sender: out.sender,
            ..block
        },
        answer: out.answer,
    }
}

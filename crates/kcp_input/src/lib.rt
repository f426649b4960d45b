// The public call input: it tests the memory of both sides and the ack memory, and then reads one datagram or changes nothing.
// The lists are handed one by one, as C hands them, each shared or unique as the call needs it: one struct of all six would ask callers for unique access
// to those that are only read.
#![tactic(auto)]

ghost use Rattle.std.specs.Prelude.{◌≡◌, true};
ghost use Rattle.ring.specs.Lists.{lists};
ghost use Rattle.snd_ring.specs.Store.{store_of};
ghost use Rattle.kcp_input.specs.Input.{input_fits, InputFits, Inputs};

use block::Kcp;
use block::refusal::Refusal;
use input::Outcome;

// Whether the block and all that input is lent are well formed.
#[tactic(auto, unfolding(crate::specs::Input::input_fits))]
fn fits(
    block: Kcp,
    rcv_records: &[u32],
    rcv_room: &[u8],
    snd_records: &[u32],
    snd_room: &[u8],
    acks: &[u32],
    waiting: &[u8],
) -> bool
    ensures value { result ≡ input_fits block (lists rcv_records.now rcv_room.now) acks.now waiting.now (lists snd_records.now snd_room.now) }
    ensures input_fits { result ≡ true → InputFits block (lists rcv_records.now rcv_room.now) acks.now waiting.now (lists snd_records.now snd_room.now) }
{
    block.own_numbers()
        && receive::lent_fits(block.receiver, rcv_records, rcv_room)
        && transmit::lent_fits(block.sender, snd_records, snd_room)
        && block.acklist.lent_fits(acks, waiting)
}

// An input that was refused before any segment was read: all as it was, and none skipped.
fn unread(block: Kcp, why: Refusal) -> Outcome
    ensures { result ≡ record { block = block; answer = Err why; skipped = 0 } }
{
    Outcome {
        block,
        answer: Err(why),
        skipped: 0,
    }
}

// One datagram, with the memory of both sides and the ack memory: the bytes consumed, and how many pushes were skipped. Refused by 15, 11 or 1, which
// leave all, or by 2, 3 or 4, which leave what the segments before the refused one did, and after 3 and 4 the conv adopted.
pub fn input(
    block: Kcp,
    rcv_records: &mut [u32],
    rcv_room: &mut [u8],
    snd_records: &mut [u32],
    snd_room: &[u8],
    acks: &mut [u32],
    waiting: &[u8],
    datagram: &[u8],
) -> Outcome
    ensures { Inputs block (lists rcv_records.old rcv_room.old) acks.old waiting.now (lists snd_records.old snd_room.now) datagram.now
        (record { block = result.block; answer = result.answer; skipped = result.skipped; rcv = lists rcv_records.new rcv_room.new; acks = acks.new; snd = store_of 8 (lists snd_records.new snd_room.now) }) }
{
    if !fits(
        block,
        rcv_records,
        rcv_room,
        snd_records,
        snd_room,
        acks,
        waiting,
    ) {
        return unread(block, Refusal::BadPool);
    }
    if datagram.len() > Kcp::MTU_MOST {
        return unread(block, Refusal::DatagramTooBig);
    }
    if datagram.len() < Kcp::OVERHEAD as usize {
        return unread(
            block,
            Refusal::InvalidSegmentSize {
                size: datagram.len(),
            },
        );
    }
    input::read(block, rcv_records, rcv_room, acks, snd_records, datagram)
}

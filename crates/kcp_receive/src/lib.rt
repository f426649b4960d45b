// The public calls that are handed the receive memory: each tests what it is handed, and then acts or changes nothing. No call requires anything of
// its caller. A block is made by `Kcp::new` and `Kcp::new_stream`, and the setters and getters that are handed no memory are methods of it too (crate
// block); send is crate kcp_send, and input kcp_input.
#![tactic(auto)]

ghost use Rattle.std.specs.Prelude.{◌≡◌};
ghost use Rattle.serial.specs.Branch.{pick};
ghost use Rattle.ring.specs.Lists.{lists};
ghost use Rattle.receive.specs.Fits.{receive_fits};
ghost use Rattle.kcp_receive.specs.Calls.{bad_pool, Promised, move_buf_of, Peeked, Receives, set_wndsize_of, wndsize_number};

use block::Kcp;
use block::refusal::Refusal;
use block::set::Set;

// The block after recv, and its answer.
#[derive(Clone, Copy)]
pub struct Received {
    pub block: Kcp,
    pub answer: Result<usize, Refusal>,
}

// Refused by 15: all as it was.
fn bad_pool(block: Kcp) -> Set
    ensures { result ≡ bad_pool block }
{
    Set {
        block,
        answer: Err(Refusal::BadPool),
    }
}

// Moves held segments to the queue while the front is rcv_nxt and the queue is shorter than rcv_wnd. Refused by 15, which leaves all.
pub fn move_buf(block: Kcp, records: &[u32], room: &[u8]) -> Set
    ensures { Promised (move_buf_of block (lists records.now room.now))
        (pick (receive_fits block (lists records.now room.now)) 0 15) result }
{
    if !receive::fits(block.own_numbers(), block.receiver, records, room) {
        return bad_pool(block);
    }
    let receiver = receive::move_buf(block.receiver, records);
    Set {
        block: Kcp { receiver, ..block },
        answer: Ok(()),
    }
}

// The length of the message at the front of the queue. Refused by 15, 5 or 6.
pub fn peeksize(block: Kcp, records: &[u32], room: &[u8]) -> Result<usize, Refusal>
    ensures { Peeked block (lists records.now room.now) result }
{
    if !receive::fits(block.own_numbers(), block.receiver, records, room) {
        return Err(Refusal::BadPool);
    }
    receive::peeksize(block.receiver, records)
}

// Hands the message at the front of the queue out into `buf`, and answers its length. Refused by 15, 5, 6 or 7, which leaves all.
pub fn recv(block: Kcp, records: &[u32], room: &[u8], buf: &mut [u8]) -> Received
    ensures { Receives block (lists records.now room.now) buf.old
        (record { block = result.block; answer = result.answer; buf = buf.new }) }
{
    if !receive::fits(block.own_numbers(), block.receiver, records, room) {
        return Received {
            block,
            answer: Err(Refusal::BadPool),
        };
    }
    let before = block.receiver;
    let out = receive::recv(before, records, room, buf);
    let answer = out.answer;
    let Ok(length) = answer else {
        return Received { block, answer };
    };
    let after = out.receiver;
    let ring = after.ring;
    let probe = receive::recovered(block.probe, before, ring.queued);
    Received {
        block: Kcp {
            receiver: after,
            probe,
            ..block
        },
        answer: Ok(length),
    }
}

// Sets both windows. Refused by 15, or by 14 where the receive window asks for more slots than are lent; either leaves both windows.
pub fn set_wndsize(block: Kcp, sndwnd: u16, rcvwnd: u16, records: &[u32], room: &[u8]) -> Set
    ensures { Promised (set_wndsize_of block (lists records.now room.now) sndwnd rcvwnd)
        (wndsize_number block (lists records.now room.now) rcvwnd) result }
{
    if !receive::fits(block.own_numbers(), block.receiver, records, room) {
        return bad_pool(block);
    }
    receive::set_wndsize(block, records.len(), sndwnd, rcvwnd)
}

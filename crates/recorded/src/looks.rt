// The calls that change no lent memory, made on the port.
ghost use Rattle.std.specs.Prelude.{◌≡◌, length};
ghost use Rattle.ring.specs.Lists.{lists};
ghost use Rattle.wire.specs.Helpers.{put_of, with_conv};
ghost use Rattle.kcp_receive.specs.Calls.{recv_of};
ghost use Rattle.recorded.specs.Sums.{sum_of, low32};
ghost use Rattle.recorded.specs.Answers.{unknown, of_done, of_count, as_refusal};
ghost use Rattle.recorded.specs.Memory.{lent_of};
ghost use Rattle.recorded.specs.Looks.{made, by_set, set_to, by_recv, starts_at, fresh_of, started, gotten, put_in, recv_step, look_of, look_by, look_of_row};

use crate::answers::{Answer, answered, as_refusal, unknown};
use crate::memory::LentMemory;
use crate::rows::{Call, Look, Row};
use crate::sums::{filled, sum_of};
use block::Kcp;
use block::receiver::Receiver;
use block::refusal::Refusal;
use block::sender::Sender;
use block::set::Set;
use kcp_receive::Received;

// The block after a call, and what the call answered.
#[derive(Clone, Copy)]
pub struct Made {
    pub block: Kcp,
    pub answer: Answer,
}

// The longest buffer of recv, and the most bytes that a header helper is handed.
const BUFFER: usize = 8192;

const HELPED: usize = 64;

// A call that cannot be made leaves the block.
pub fn unplayed(block: Kcp) -> Made
    ensures { result ≡ made block unknown }
{
    Made {
        block,
        answer: unknown(),
    }
}

// What a setter left that can be refused.
fn by_set(set: Set) -> Made
    ensures { result ≡ by_set set }
{
    Made {
        block: set.block,
        answer: answered(set.answer, 0),
    }
}

// What a setter left that cannot.
fn set_to(block: Kcp) -> Made
    ensures { result ≡ set_to block }
{
    Made {
        block,
        answer: answered(Ok(()), 0),
    }
}

// A block made anew, plain or stream.
#[tactic(auto, unfolding(crate::specs::Looks::fresh_of, serial::specs::Branch::pick))]
fn fresh(
    row: Row,
    rcv_records: &[u32],
    rcv_room: &[u8],
    snd_records: &[u32],
    snd_room: &[u8],
    acks: &[u32],
    waiting: &[u8],
) -> Result<Kcp, Refusal>
    ensures { result ≡ fresh_of row (record { rcv = lists rcv_records.now rcv_room.now; snd = lists snd_records.now snd_room.now; acks = acks.now; waiting = waiting.now }) }
{
    if row.b == 0 {
        return Kcp::new(
            row.a,
            rcv_records,
            rcv_room,
            snd_records,
            snd_room,
            acks,
            waiting,
        );
    }
    Kcp::new_stream(
        row.a,
        rcv_records,
        rcv_room,
        snd_records,
        snd_room,
        acks,
        waiting,
    )
}

// The block with the numbers that receiving and sending start from.
fn starts_at(block: Kcp, rcv: u32, snd: u32) -> Kcp
    ensures { result ≡ starts_at block rcv snd }
{
    Kcp {
        receiver: Receiver {
            rcv_nxt: rcv,
            ..block.receiver
        },
        sender: Sender {
            snd_una: snd,
            snd_nxt: snd,
            ..block.sender
        },
        ..block
    }
}

// What making a block left: its numbers start where the step says, and a refusal leaves the block of before.
#[tactic(auto, unfolding(crate::specs::Looks::started))]
fn started(block: Kcp, outcome: Result<Kcp, Refusal>, row: Row) -> Made
    ensures { result ≡ started row block outcome }
{
    match outcome {
        Ok(fresh) => set_to(starts_at(fresh, row.c, row.d)),
        Err(why) => Made {
            block,
            answer: answered::<()>(Err(why), 0),
        },
    }
}

// What recv left, with the sum over its buffer.
fn by_recv(out: Received, sum: u32) -> Made
    ensures { result ≡ made out.block (of_count out.answer sum) }
{
    Made {
        block: out.block,
        answer: answered(out.answer, sum),
    }
}

// recv into a buffer.
fn recv_in(block: Kcp, records: &[u32], room: &[u8], buf: &mut [u8]) -> Made
    ensures { result ≡ by_recv (recv_of block (lists records.now room.now) buf.old) }
{
    let out = kcp_receive::recv(block, records, room, buf);
    by_recv(out, sum_of(buf))
}

// recv into a buffer of so many bytes, if it is none too long.
fn recv_step(block: Kcp, len: usize, records: &[u32], room: &[u8]) -> Made
    ensures { result ≡ recv_step len block (lists records.now room.now) }
{
    if BUFFER < len {
        return unplayed(block);
    }
    let mut buf: [u8; BUFFER] = filled(0);
    recv_in(block, records, room, &mut buf[..len])
}

// The low 32 bits of a wider number: a cast alone is to lose none.
pub fn low32(x: usize) -> u32
    ensures { result ≡ low32 x }
{
    (x % (1 << 32)) as u32
}

// What every getter answers.
#[tactic(auto, unfolding(crate::specs::Looks::gotten))]
fn gotten(block: Kcp) -> [u32; 11]
    ensures value { result ≡ gotten block }
    ensures value_2 { 11 ≡ length result }
{
    [
        block.conv(),
        u32::from(block.waiting_conv()),
        low32(block.mtu()),
        low32(block.mss()),
        u32::from(block.snd_wnd()),
        u32::from(block.rcv_wnd()),
        u32::from(block.rmt_wnd()),
        low32(block.wait_snd()),
        low32(Kcp::header_len()),
        u32::from(block.is_stream()),
        u32::from(block.is_dead_link()),
    ]
}

// set_conv on a copy of the bytes.
fn put_in(buf: &mut [u8], handed: &[u8], conv: u32) -> Answer
    requires { length buf.old ≡ length handed.now }
    ensures { result ≡ of_done (as_refusal (put_of handed.now)) (sum_of (with_conv handed.now conv)) }
{
    buf.copy_from_slice(handed);
    let put = wire::set_conv(buf, conv);
    answered(as_refusal(put), sum_of(buf))
}

// The same, if there are few enough of them.
#[tactic(auto, unfolding(crate::specs::Looks::put_in, serial::specs::Branch::pick))]
fn put(handed: &[u8], conv: u32) -> Answer
    ensures { result ≡ put_in conv handed.now }
{
    if HELPED < handed.len() {
        return unknown();
    }
    let mut buf = [0u8; HELPED];
    put_in(&mut buf[..handed.len()], handed, conv)
}

// A call that changes no lent memory, over the six lists: `looked` and `look` both make it here.
#[tactic(auto, unfolding(crate::specs::Looks::look_of))]
fn looked_over(
    block: Kcp,
    look: Look,
    row: Row,
    handed: &[u8],
    rcv_records: &[u32],
    rcv_room: &[u8],
    snd_records: &[u32],
    snd_room: &[u8],
    acks: &[u32],
    waiting: &[u8],
) -> Made
    ensures { result ≡ look_of look row handed.now block (record { rcv = lists rcv_records.now rcv_room.now; snd = lists snd_records.now snd_room.now; acks = acks.now; waiting = waiting.now }) }
{
    match look {
        Look::New => started(
            block,
            fresh(
                row,
                rcv_records,
                rcv_room,
                snd_records,
                snd_room,
                acks,
                waiting,
            ),
            row,
        ),
        Look::Recv => recv_step(block, row.a as usize, rcv_records, rcv_room),
        Look::Peeksize => Made {
            block,
            answer: answered(kcp_receive::peeksize(block, rcv_records, rcv_room), 0),
        },
        Look::MoveBuf => by_set(kcp_receive::move_buf(block, rcv_records, rcv_room)),
        Look::SetWndsize => by_set(kcp_receive::set_wndsize(
            block,
            (row.a & 0xFFFF) as u16,
            (row.b & 0xFFFF) as u16,
            rcv_records,
            rcv_room,
        )),
        Look::Check => Made {
            block,
            answer: answered(kcp_flush::check(block, row.a, snd_records, snd_room), 0),
        },
        Look::SetMtu => by_set(block.set_mtu(row.a as usize)),
        Look::SetInterval => set_to(block.set_interval(row.a)),
        Look::SetNodelay => set_to(block.set_nodelay(
            row.a != 0,
            row.b.cast_signed(),
            row.c.cast_signed(),
            row.d != 0,
        )),
        Look::SetRxMinrto => set_to(block.set_rx_minrto(row.a)),
        Look::SetFastResend => set_to(block.set_fast_resend(row.a)),
        Look::SetMaximumResendTimes => set_to(block.set_maximum_resend_times(row.a)),
        Look::InputConv => set_to(block.input_conv()),
        Look::SetConv => set_to(block.set_conv(row.a)),
        Look::Get => Made {
            block,
            answer: Answer {
                refusal: 0,
                first: 0,
                second: 0,
                sum: sum_of(&gotten(block)),
            },
        },
        Look::GetConv => Made {
            block,
            answer: answered(as_refusal(wire::get_conv(handed)), 0),
        },
        Look::PutConv => Made {
            block,
            answer: put(handed, row.a),
        },
        Look::GetSn => Made {
            block,
            answer: answered(as_refusal(wire::get_sn(handed)), 0),
        },
    }
}

// A call that changes no lent memory.
pub fn looked(block: Kcp, look: Look, row: Row, handed: &[u8], lent: &LentMemory) -> Made
    ensures { result ≡ look_of look row handed.now block (lent_of lent.now) }
{
    looked_over(
        block,
        look,
        row,
        handed,
        lent.rcv_records,
        lent.rcv_room,
        lent.snd_records,
        lent.snd_room,
        lent.acks,
        lent.waiting,
    )
}

// The call to make for one that a step names, where the lists are lent to be looked at alone.
#[tactic(auto, unfolding(crate::specs::Looks::look_by))]
fn look_by(call: Option<Call>) -> Option<Look>
    ensures { result ≡ look_by call }
{
    match call? {
        Call::Look(look) => Some(look),
        Call::Input | Call::Send | Call::FlushAck | Call::Flush | Call::Update => {
            Some(Look::SetWndsize)
        }
    }
}

// The call of any step, over lists that are lent to be looked at alone: set_wndsize stands for a call that changes them.
#[tactic(auto, unfolding(crate::specs::Looks::look_of_row, crate::specs::Looks::looked_by))]
pub fn look(
    block: Kcp,
    row: Row,
    handed: &[u8],
    rcv_records: &[u32],
    rcv_room: &[u8],
    snd_records: &[u32],
    snd_room: &[u8],
    acks: &[u32],
    waiting: &[u8],
) -> Made
    ensures { result ≡ look_of_row row handed.now block (record { rcv = lists rcv_records.now rcv_room.now; snd = lists snd_records.now snd_room.now; acks = acks.now; waiting = waiting.now }) }
{
    let Some(look) = look_by(row.call()) else {
        return unplayed(block);
    };
    looked_over(
        block,
        look,
        row,
        handed,
        rcv_records,
        rcv_room,
        snd_records,
        snd_room,
        acks,
        waiting,
    )
}

// The receive side in lent memory: the push part of input, `move_buf`, peeksize and recv, and the window setter. Each requires that the memory
// is well formed; the public calls test that and then act.
#![tactic(auto)]

ghost use Rattle.std.specs.Prelude.{◌≡◌, true, ◌&&◌, ◌-◌, ◌<◌, ◌≤◌, max, length};
ghost use Rattle.serial.specs.Window.{in_window};
ghost use Rattle.ring.specs.Lists.{lists};
ghost use Rattle.ring.specs.Places.{summed, along};
ghost use Rattle.ring.specs.Records.{put};
ghost use Rattle.rcv_ring.specs.Places.{size_at, payload_at, Within};
ghost use Rattle.block.specs.WellFormed.{ReceiverFits};
ghost use Rattle.receiving.specs.Rules.{expects, too_large};
ghost use Rattle.receive.specs.Memory.{queue_frgs, queue_sizes, side, move_buf_at, stored_in, moved_at, PushedAs, peek_at, length_answer, freed_at, recv_at, tell_bit, with_tell, probe_at, send_window, receive_window, windows_at, Spans};
ghost use Rattle.receive.specs.Fits.{Lies, Good, receive_lent};

use block::Kcp;
use block::acklist::AckList;
use block::congestion::Congestion;
use block::probe::Probe;
use block::receiver::Receiver;
use block::refusal::Refusal;
use block::set::Set;
use block::sizes::receive_sizes;
use rcv_ring::RcvRing;

// How many segments more the queue may hold.
fn room_left(receiver: Receiver) -> usize
    ensures { result ≡ receiver.rcv_wnd - receiver.ring.queued }
{
    (receiver.rcv_wnd as u32).saturating_sub(receiver.ring.queued) as usize
}

// Held segments move to the queue while the front is rcv_nxt and the queue is shorter than rcv_wnd; no memory moves.
pub fn move_buf(receiver: Receiver, records: &[u32]) -> Receiver
    requires { Lies receiver records.now }
    ensures { result ≡ move_buf_at receiver records.now }
{
    let ring = receiver.ring;
    let n = ring.ready(records, room_left(receiver));
    receiver.with_ring(receiver.rcv_nxt.wrapping_add(n as u32), ring.moved(n))
}

// What a push leaves: the numbers of the receiving side and of the ack list, and how many pushes were skipped, 0 or 1.
#[derive(Clone, Copy, Debug, PartialEq, Eq)]
pub struct Pushed {
    pub receiver: Receiver,
    pub acklist: AckList,
    pub skipped: u32,
}

// A push in the window: stored at its distance where its number is not held, and then held segments move.
fn parse_data(
    receiver: Receiver,
    records: &mut [u32],
    room: &mut [u8],
    sn: u32,
    frg: u8,
    payload: &[u8],
) -> Receiver
    requires good { Good receiver (lists records.old room.old) }
    requires sn_value { in_window receiver.rcv_nxt receiver.rcv_wnd sn ≡ true }
    requires payload_len_bound { length payload.now ≤ 1476 }
    ensures { side result (lists records.new room.new)
        ≡ moved_at (stored_in receiver (lists records.old room.old) (record { sn = sn; frg = frg; payload = payload.now })) }
{
    let ring = receiver.ring;
    let d = serial::distance_of(receiver.rcv_nxt, sn);
    if ring.is_held(records, d) {
        return move_buf(receiver, records);
    }
    let with = ring.store(records, room, d, frg, payload);
    move_buf(receiver.with_ring(receiver.rcv_nxt, with), records)
}

// The push part of input. Acknowledged while the ack list is full it is skipped; else, if acknowledged, (sn, ts) joins the list, and in the
// window it is taken, unless its number is held, and held segments move.
pub fn push(
    receiver: Receiver,
    acklist: AckList,
    records: &mut [u32],
    room: &mut [u8],
    acks: &mut [u32],
    sn: u32,
    frg: u8,
    ts: u32,
    payload: &[u8],
) -> Pushed
    requires good { Good receiver (lists records.old room.old) }
    requires payload_len_bound { length payload.now ≤ 1476 }
    requires acks_len_bound { length acks.old ≤ 8192 }
    ensures { PushedAs receiver acklist (lists records.old room.old) acks.old (record { sn = sn; frg = frg; payload = payload.now }) ts
        result (lists records.new room.new) acks.new }
{
    let nxt = receiver.rcv_nxt;
    let wnd = receiver.rcv_wnd as u32;
    if !serial::acknowledged(nxt, wnd, sn) {
        return Pushed {
            receiver,
            acklist,
            skipped: 0,
        };
    }
    let n = acklist.acks as usize;
    if acks.len() / 2 <= n {
        return Pushed {
            receiver,
            acklist,
            skipped: 1,
        };
    }
    ring::put_record(acks, n, &[sn, ts]);
    let list = AckList {
        acks: acklist.acks + 1,
        ..acklist
    };
    if !serial::in_window(nxt, wnd, sn) {
        return Pushed {
            receiver,
            acklist: list,
            skipped: 0,
        };
    }
    Pushed {
        receiver: parse_data(receiver, records, room, sn, frg, payload),
        acklist: list,
        skipped: 0,
    }
}

// How many segments the message at the front of the queue has, and how many bytes.
#[derive(Clone, Copy, Debug, PartialEq, Eq)]
pub struct Message {
    pub segments: usize,
    pub size: usize,
}

// The message at the front of the queue: up to the first frg 0 or the queue's end.
fn message_of(ring: RcvRing, records: &[u32]) -> Message
    requires within { Within ring records.now }
    requires queued_in_bounds { ring.queued ≤ length records.now }
    ensures { Spans (queue_frgs ring records.now) (queue_sizes ring records.now) result }
{
    let count = ring.queued as usize;
    let mut size = 0;
    for i in 0..count {
        size += ring.size_at(records, i);
        if ring.frg_at(records, i) == 0 {
            return Message {
                segments: i + 1,
                size,
            };
        }
    }
    Message {
        segments: count,
        size,
    }
}

// Whether a front segment with this frg needs more segments than are queued; frg + 1 is a whole number.
fn expecting(frg: u32, queued: u32) -> bool
    ensures { result ≡ expects frg queued }
{
    frg != 0 && queued <= frg
}

// The length of the message at the front of the queue; refused by 5 where the queue is empty, and by 6 where a fragment is still expected.
pub fn peeksize(receiver: Receiver, records: &[u32]) -> Result<usize, Refusal>
    requires { Lies receiver records.now }
    ensures { result ≡ length_answer (peek_at receiver records.now) }
{
    let ring = receiver.ring;
    if ring.queued == 0 {
        return Err(Refusal::RecvQueueEmpty);
    }
    if expecting(ring.frg_at(records, 0), ring.queued) {
        return Err(Refusal::ExpectingFragment);
    }
    let message = message_of(ring, records);
    Ok(message.size)
}

// What recv leaves: the numbers of the receiving side, and its answer.
#[derive(Clone, Copy, Debug, PartialEq, Eq)]
pub struct Handed {
    pub receiver: Receiver,
    pub answer: Result<usize, Refusal>,
}

// Hands the first `count` segments of the queue out into `buf`: they leave the queue, their slots are free, and held segments move.
fn hand_out(
    receiver: Receiver,
    records: &[u32],
    room: &[u8],
    count: usize,
    buf: &mut [u8],
) -> Receiver
    requires good { Good receiver (lists records.now room.now) }
    requires count_le_queued { count ≤ receiver.ring.queued }
    requires count_in_bounds { summed (size_at receiver.ring records.now) 0 count ≤ length buf.old }
    ensures value { result ≡ move_buf_at (freed_at (length records.now) count receiver) records.now }
    ensures buf_after { buf.new ≡ put buf.old 0 (along (payload_at receiver.ring (lists records.now room.now)) 0 count) }
{
    let ring = receiver.ring;
    ring.copy_out(records, room, count, buf);
    let less = ring.dropped(records.len(), count);
    move_buf(receiver.with_ring(receiver.rcv_nxt, less), records)
}

// Hands the message at the front of the queue out; refused by 5, 6 or 7, which leaves all. Bytes of `buf` past the message stay.
pub fn recv(receiver: Receiver, records: &[u32], room: &[u8], buf: &mut [u8]) -> Handed
    requires { Good receiver (lists records.now room.now) }
    ensures { record { receiver = result.receiver; answer = result.answer; buf = buf.new }
        ≡ recv_at receiver (lists records.now room.now) buf.old }
{
    let ring = receiver.ring;
    if ring.queued == 0 {
        return Handed {
            receiver,
            answer: Err(Refusal::RecvQueueEmpty),
        };
    }
    if expecting(ring.frg_at(records, 0), ring.queued) {
        return Handed {
            receiver,
            answer: Err(Refusal::ExpectingFragment),
        };
    }
    let message = message_of(ring, records);
    if buf.len() < message.size {
        return Handed {
            receiver,
            answer: Err(Refusal::UserBufTooSmall),
        };
    }
    Handed {
        receiver: hand_out(receiver, records, room, message.segments, buf),
        answer: Ok(message.size),
    }
}

// The bits of a probe with the tell bit set.
#[tactic(auto, using(crate::proofs::Bits::tell_put))]
fn tell_bit(bits: u32) -> u32
    ensures { result ≡ tell_bit bits }
{
    bits | Kcp::ASK_TELL
}

// The probe once a tell is to go out.
pub fn tell(probe: Probe) -> Probe
    ensures { result ≡ with_tell probe }
{
    Probe {
        bits: tell_bit(probe.bits),
        ..probe
    }
}

// The probe after a recv: a tell is to go out if the queue was at or over the window and now is under.
#[tactic(auto, unfolding(crate::specs::Memory::probe_at, serial::specs::Branch::pick))]
pub fn recovered(probe: Probe, before: Receiver, after: u32) -> Probe
    ensures { result ≡ probe_at before after probe }
{
    let window = before.rcv_wnd as u32;
    if window <= before.ring.queued && after < window {
        tell(probe)
    } else {
        probe
    }
}

// Whether a receive window asks for more slots than are lent.
#[tactic(auto, unfolding(receiving::specs::Rules::too_large))]
fn too_large(slots: usize, rcvwnd: u16) -> bool
    ensures { result ≡ too_large slots rcvwnd }
{
    rcvwnd != 0 && slots < 2 * rcvwnd.max(Kcp::WND_RCV) as usize
}

// The windows of the sending side with this send window; 0 leaves it.
#[tactic(auto, unfolding(crate::specs::Memory::send_window, serial::specs::Branch::pick))]
fn send_window(congestion: Congestion, sndwnd: u16) -> Congestion
    ensures { result ≡ send_window sndwnd congestion }
{
    if sndwnd == 0 {
        congestion
    } else {
        Congestion {
            snd_wnd: sndwnd,
            ..congestion
        }
    }
}

// The receiving side with this receive window, at least 128; 0 leaves it.
#[tactic(auto, unfolding(crate::specs::Memory::receive_window, crate::specs::Memory::widened_at, serial::specs::Branch::pick))]
fn receive_window(receiver: Receiver, rcvwnd: u16) -> Receiver
    ensures { result ≡ receive_window rcvwnd receiver }
{
    if rcvwnd == 0 {
        return receiver;
    }
    let window = rcvwnd.max(Kcp::WND_RCV);
    Receiver {
        rcv_wnd: window,
        largest: receiver.largest.max(window),
        ..receiver
    }
}

// Sets both windows beside so many lent slots; refused by 14, which leaves both.
#[tactic(auto, unfolding(crate::specs::Memory::windows_at, serial::specs::Branch::pick))]
pub fn set_wndsize(block: Kcp, slots: usize, sndwnd: u16, rcvwnd: u16) -> Set
    ensures { result ≡ windows_at slots block sndwnd rcvwnd }
{
    if too_large(slots, rcvwnd) {
        return Set {
            block,
            answer: Err(Refusal::WindowTooLarge),
        };
    }
    let congestion = send_window(block.congestion, sndwnd);
    let receiver = receive_window(block.receiver, rcvwnd);
    Set {
        block: Kcp {
            congestion,
            receiver,
            ..block
        },
        answer: Ok(()),
    }
}

// Whether the receive memory is well formed beside a receiver whose own numbers are.
#[tactic(auto, unfolding(crate::specs::Fits::receive_lent))]
pub fn lent_fits(receiver: Receiver, records: &[u32], room: &[u8]) -> bool
    requires { ReceiverFits receiver }
    ensures { result ≡ receive_lent receiver (lists records.now room.now) }
{
    receive_sizes(records.len(), room.len())
        && receiver.receive_numbers(records.len())
        && receiver.ring.marks_fit(records)
}

// Whether block and receive memory are well formed, where `own` tells whether the block's own numbers are. A call is handed the part that it looks at
// and not the block, which would be laid out in memory for it.
pub fn fits(own: bool, receiver: Receiver, records: &[u32], room: &[u8]) -> bool
    requires { own ≡ true → ReceiverFits receiver }
    ensures value { result ≡ (own && receive_lent receiver (lists records.now room.now)) }
    ensures good { result ≡ true → Good receiver (lists records.now room.now) }
{
    own && lent_fits(receiver, records, room)
}

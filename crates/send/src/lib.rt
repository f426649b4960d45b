// send in lent memory: how many segments it needs, the fill of the last queued one, and the new ones. It requires that the memory is well
// formed; the public call tests that and then sends.
#![tactic(auto)]

ghost use Rattle.std.specs.Prelude.{◌≡◌, List, ℕ, ◌+◌, ◌-◌, ◌/◌, ◌<◌, ◌≤◌, min, length, drop};
ghost use Rattle.serial.specs.Branch.{pick};
ghost use Rattle.ring.specs.Lists.{lists};
ghost use Rattle.snd_ring.specs.Store.{store_of, Sound, Shaped};
ghost use Rattle.transmit.specs.Fits.{Lies};
ghost use Rattle.sending.specs.Send.{fills, joins, pieces, needed, cut};
ghost use Rattle.send.specs.Memory.{laid, last_length, queued_at, spaced_at, filled_at, SentAs};

use block::refusal::Refusal;
use block::sender::Sender;
use sending::column::FRG;
use snd_ring::SndRing;

// Whether there is a last queued segment to fill.
#[tactic(auto, unfolding(sending::specs::Send::fills))]
fn fills(mss: usize, stream: bool, queued: usize, last: usize) -> bool
    ensures { result ≡ fills mss stream queued last }
{
    stream && queued > 0 && last < mss
}

// How many of n bytes join the last queued segment.
#[tactic(auto, unfolding(sending::specs::Send::joins, serial::specs::Branch::pick))]
fn joins(mss: usize, stream: bool, queued: usize, last: usize, n: usize) -> usize
    ensures { result ≡ joins mss stream queued last n }
{
    if !fills(mss, stream, queued, last) {
        return 0;
    }
    (mss - last).min(n)
}

// How many new segments n bytes make: none in a stream where there are no bytes, and one where the mode is plain.
fn pieces(mss: usize, stream: bool, n: usize) -> usize
    requires { 0 < mss }
    ensures { result ≡ pieces mss stream n }
{
    if n == 0 && !stream {
        return 1;
    }
    n.div_ceil(mss)
}

// How many new segments a send of n bytes needs, behind those that join the last.
fn needed(mss: usize, stream: bool, queued: usize, last: usize, n: usize) -> usize
    requires { 0 < mss }
    ensures { result ≡ needed mss stream queued last n }
{
    pieces(mss, stream, n - joins(mss, stream, queued, last, n))
}

// The frg of a segment that so many of its message follow; 0 in stream mode.
#[tactic(auto, unfolding(serial::specs::Branch::pick))]
fn frg_of(stream: bool, left: usize) -> u32
    requires { left < 65536 }
    ensures { result ≡ pick stream 0 left }
{
    if stream { 0 } else { left as u32 }
}

// The length of the last queued segment's payload.
fn last_length(sender: Sender, records: &[u32]) -> usize
    requires { Lies sender records.now }
    ensures { (room : List ℕ) → result ≡ last_length sender.ring (store_of 8 (lists records.now room)) }
{
    let ring = sender.ring;
    let n = ring.reach as usize + ring.unsent as usize;
    let slots = snd_ring::slots_in(records.len());
    let q = ring::place_of(slots, ring.start as usize, n.saturating_sub(1));
    (records[q] as usize).saturating_sub(1)
}

// The last queued segment is filled up to mss, in stream mode, and its frg is 0.
fn fill_last(
    sender: Sender,
    mss: usize,
    stream: bool,
    records: &mut [u32],
    room: &mut [u8],
    bytes: &[u8],
)
    requires sound { Sound 8 sender.ring (store_of 8 (lists records.old room.old)) }
    requires mss_bound { mss ≤ 1476 }
    ensures { store_of 8 (lists records.new room.new)
        ≡ filled_at mss stream bytes.now sender (store_of 8 (lists records.old room.old)) }
{
    let ring = sender.ring;
    let queued = ring.unsent as usize;
    let last = last_length(sender, records);
    if !fills(mss, stream, queued, last) {
        return;
    }
    let n = joins(mss, stream, queued, last, bytes.len());
    ring.fill(records, room, &bytes[0..n], FRG, 0);
}

// Where the end is too short for so many new segments, the gaps in flight are closed.
fn make_room(ring: SndRing, records: &mut [u32], room: &mut [u8], new: usize) -> SndRing
    requires sound { Sound 8 ring (store_of 8 (lists records.old room.old)) }
    requires bound { new ≤ 65535 }
    ensures { laid result (store_of 8 (lists records.new room.new)) ≡ spaced_at new (laid ring (store_of 8 (lists records.old room.old))) }
{
    let used = ring.reach as usize + ring.unsent as usize;
    if snd_ring::slots_in(records.len()) < used + new {
        return ring.close(records, room);
    }
    ring
}

// `count` new segments behind those that wait: the pieces of bytes from byte `from` on, frg counting down to 0.
fn queue(
    start: SndRing,
    records: &mut [u32],
    room: &mut [u8],
    count: usize,
    mss: usize,
    stream: bool,
    bytes: &[u8],
    from: usize,
) -> SndRing
    requires shaped { Shaped 8 start (store_of 8 (lists records.old room.old)) }
    requires count_in_bounds { start.reach + start.unsent + count ≤ length records.old / 9 }
    requires mss_bound { mss ≤ 1476 }
    requires from_in_bounds { from ≤ length bytes.now }
    ensures { laid result (store_of 8 (lists records.new room.new))
        ≡ queued_at (cut mss stream count (drop from bytes.now)) (laid start (store_of 8 (lists records.old room.old))) }
{
    let mut ring = start;
    let mut at = from;
    for left in (0..count).rev() {
        let end = (at + mss).min(bytes.len());
        let row = [0, frg_of(stream, left), 0, 0, 0, 0, 0, 0];
        ring = ring.append(records, room, &row, &bytes[at..end]);
        at = end;
    }
    ring
}

// What a send leaves: the numbers of the sending side, and its answer.
#[derive(Clone, Copy)]
pub struct Sent {
    pub sender: Sender,
    pub answer: Result<usize, Refusal>,
}

// A refusal: the numbers of the sending side are as they were.
fn refused(sender: Sender, why: Refusal) -> Sent
    ensures { result ≡ record { sender = sender; answer = Err why } }
{
    Sent {
        sender,
        answer: Err(why),
    }
}

// Queues the bytes, the last queued segment filled first in stream mode. Refused by 8, which leaves the fill, and by 12, which leaves all.
pub fn send(
    sender: Sender,
    mss: u32,
    stream: bool,
    records: &mut [u32],
    room: &mut [u8],
    bytes: &[u8],
) -> Sent
    requires sound { Sound 8 sender.ring (store_of 8 (lists records.old room.old)) }
    requires le_mss { 26 ≤ mss }
    requires mss_bound { mss ≤ 1476 }
    ensures { SentAs mss stream bytes.now sender (store_of 8 (lists records.old room.old))
        result (store_of 8 (lists records.new room.new)) }
{
    let size = mss as usize;
    let ring = sender.ring;
    let queued = ring.unsent as usize;
    let last = last_length(sender, records);
    let new = needed(size, stream, queued, last, bytes.len());
    if new >= 128 {
        fill_last(sender, size, stream, records, room, bytes);
        return refused(sender, Refusal::UserBufTooBig);
    }
    let slots = snd_ring::slots_in(records.len());
    if slots - sender.segments() < new {
        return refused(sender, Refusal::SendPoolFull);
    }
    fill_last(sender, size, stream, records, room, bytes);
    let from = joins(size, stream, queued, last, bytes.len());
    let free = make_room(ring, records, room, new);
    let after = queue(free, records, room, new, size, stream, bytes, from);
    Sent {
        sender: sender.with_ring(after),
        answer: Ok(bytes.len()),
    }
}

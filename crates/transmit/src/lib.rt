// The sending side in lent memory: what input does with una and with acks, and the test of the send memory.
#![tactic(auto)]

ghost use Rattle.std.specs.Prelude.{◌≡◌, ◌&&◌, ◌||◌, List, [], ℕ, ◌+◌, ◌-◌, ◌/◌, ◌≤◌, ◌<◌, length, eqb};
ghost use Rattle.ring.specs.Lists.{lists};
ghost use Rattle.snd_ring.specs.Store.{store_of};
ghost use Rattle.sending.specs.Rules.{acknowledged_by, stops};
ghost use Rattle.transmit.specs.Memory.{flying_numbers, side, shrunk_at, una_at, ack_at, raised_from, fastack_at, ends_at, ends_in, found_at, First};
ghost use Rattle.transmit.specs.Portions.{flight_at, Gathered, written_back, put_back, raised_run};
ghost use Rattle.transmit.specs.Fits.{send_lent, Lies, Inside};

use block::sender::Sender;
use block::sizes::send_sizes;
use sending::column::{FASTACK, SN, TS};
use sending::{Ack, Flight};
use snd_ring::SndRing;

// How many of the segments in flight una acknowledges: those at the front that are numbered before it, gaps passed over.
fn acknowledged_count(ring: SndRing, records: &[u32], una: u32) -> u32
    requires { Inside ring records.now }
    ensures { (room : List ℕ) → result ≡ acknowledged_by una (flying_numbers ring (store_of 8 (lists records.now room))) }
{
    let slots = snd_ring::slots_in(records.len());
    let reach = ring.reach as usize;
    let mut n: u32 = 0;
    for i in 0..reach {
        let q = ring::place_of(slots, ring.start as usize, i);
        if records[q] != 0 {
            if !serial::after(una, snd_ring::number_at(records, q, SN)) {
                return n;
            }
            n += 1;
        }
    }
    n
}

// snd_una set anew: the front number, or snd_nxt.
fn shrink(sender: Sender, records: &[u32]) -> Sender
    requires { Lies sender records.now }
    ensures { (room : List ℕ) → result ≡ shrunk_at sender (store_of 8 (lists records.now room)) }
{
    let ring = sender.ring;
    if ring.reach == 0 {
        return sender.with_una(sender.snd_nxt);
    }
    sender.with_una(snd_ring::number_at(records, ring.start as usize, SN))
}

// Drops the segments in flight that una acknowledges; no memory changes.
pub fn parse_una(sender: Sender, records: &[u32], una: u32) -> Sender
    requires { Lies sender records.now }
    ensures { (room : List ℕ) → result ≡ una_at una sender (store_of 8 (lists records.now room)) }
{
    let ring = sender.ring;
    let n = acknowledged_count(ring, records, una);
    let slots = snd_ring::slots_in(records.len());
    let less = ring.drop_front(&records[0..slots], n);
    shrink(sender.with_ring(less), records)
}

// Whether the search for sn ends at a segment numbered n: that is the one, or the search stops there.
fn ends(sn: u32, n: u32) -> bool
    ensures { result ≡ (eqb n sn || stops sn n) }
{
    n == sn || sending::stops(sn, n)
}

// The first of the places from `from` up to `to` where the search for sn ends, or `to`. The number is looked at before the mark, since few of the
// numbers end it. A while and two ifs: by `for` and `&&` the search takes 1.6 times as long. Not inlined, so that its loop keeps the list's address.
#[inline(never)]
fn seek_run(records: &[u32], from: usize, to: usize, sn: u32) -> usize
    requires from_le_to { from ≤ to }
    requires to_le_slots { to ≤ length records.now / 9 }
    ensures { First (ends_at sn (store_of 8 (lists records.now []))) from to result }
{
    let mut q = from;
    while q < to {
        if ends(sn, snd_ring::number_at(records, q, SN)) {
            if records[q] != 0 {
                return q;
            }
        }
        q += 1;
    }
    q
}

// The index in flight where the search for sn ends, or the reach. The places in flight are one run, or two round the ring's end.
fn seek_index(ring: SndRing, records: &[u32], sn: u32) -> usize
    requires { Inside ring records.now }
    ensures { First (ends_in sn ring (store_of 8 (lists records.now []))) 0 ring.reach result }
{
    let slots = snd_ring::slots_in(records.len());
    let start = ring.start as usize;
    let reach = ring.reach as usize;
    let left = slots - start;
    if reach <= left {
        return seek_run(records, start, start + reach, sn) - start;
    }
    let q = seek_run(records, start, slots, sn);
    if q < slots {
        return q - start;
    }
    left + seek_run(records, 0, reach - left, sn)
}

// The index in flight of a number, if the search finds it, which goes from the front on, gaps passed over.
fn seek(ring: SndRing, records: &[u32], sn: u32) -> Option<usize>
    requires { Inside ring records.now }
    ensures { (room : List ℕ) → result ≡ found_at sn ring (store_of 8 (lists records.now room)) }
{
    let at = seek_index(ring, records, sn);
    if (ring.reach as usize) <= at {
        return None;
    }
    let q = ring::place_of(snd_ring::slots_in(records.len()), ring.start as usize, at);
    if snd_ring::number_at(records, q, SN) != sn {
        return None;
    }
    Some(at)
}

// Removes the segment that an ack names, if its number is in flight and the search finds it.
pub fn parse_ack(sender: Sender, records: &mut [u32], sn: u32) -> Sender
    requires { Lies sender records.old }
    ensures { (room : List ℕ) → side result (store_of 8 (lists records.new room)) ≡ ack_at sn sender (store_of 8 (lists records.old room)) }
{
    if !sending::in_range(sender.snd_una, sender.snd_nxt, sn) {
        return shrink(sender, records);
    }
    let ring = sender.ring;
    let Some(i) = seek(ring, records, sn) else {
        return shrink(sender, records);
    };
    let less = ring.take_out(records, i);
    shrink(sender.with_ring(less), records)
}

// The flight record at place q.
fn flight_at(records: &[u32], q: usize) -> Flight
    requires q_lt_slots { q < length records.now / 9 }
    ensures { result ≡ flight_at (store_of 8 (lists records.now [])) q }
{
    Flight {
        number: snd_ring::number_at(records, q, SN),
        ts: snd_ring::number_at(records, q, TS),
        fastack: snd_ring::number_at(records, q, FASTACK),
    }
}

// The flight records at the places from q on, side by side, those of gaps among them: as many as are lent.
fn gather(records: &[u32], q: usize, flights: &mut [Flight])
    requires q_bound { q + length flights.old ≤ length records.now / 9 }
    ensures { Gathered (store_of 8 (lists records.now [])) q (length flights.new) flights.new }
{
    for (i, f) in flights.iter_mut().enumerate() {
        *f = flight_at(records, q + i);
    }
}

// Writes the fastack of a flight record at place q; a gap is passed over.
fn put_one(records: &mut [u32], q: usize, f: Flight)
    requires q_lt_slots { q < length records.old / 9 }
    ensures { (room : List ℕ) → store_of 8 (lists records.new room) ≡ written_back f q (store_of 8 (lists records.old room)) }
{
    if records[q] == 0 {
        return;
    }
    snd_ring::put_number(records, q, FASTACK, f.fastack);
}

// Writes the flight records back, at the places from q on.
fn put_back(records: &mut [u32], q: usize, flights: &[Flight])
    requires q_bound { q + length flights.now ≤ length records.old / 9 }
    ensures { (room : List ℕ) → store_of 8 (lists records.new room) ≡ put_back flights.now q 0 (length flights.now) (store_of 8 (lists records.old room)) }
{
    for (i, f) in flights.iter().enumerate() {
        put_one(records, q + i, *f);
    }
}

// Raises the fastacks at the n places from q on, by one walk over their flight records, which stand in one array for all three calls.
fn raise_part(records: &mut [u32], q: usize, n: usize, latest: Ack)
    requires n_bound { q + n ≤ length records.old / 9 }
    requires n_bound_2 { n ≤ 64 }
    ensures { (room : List ℕ) → store_of 8 (lists records.new room) ≡ raised_run latest.sn latest.ts q n (store_of 8 (lists records.old room)) }
{
    let none = Flight {
        number: 0,
        ts: 0,
        fastack: 0,
    };
    let mut flights = [none; 64];
    let part = &mut flights[..n];
    gather(records, q, part);
    sending::raise(part, latest);
    put_back(records, q, part);
}

// Raises them at the places from `from` up to `to`, 64 at a time.
fn raise_run(records: &mut [u32], from: usize, to: usize, latest: Ack)
    requires from_le_to { from ≤ to }
    requires to_le_slots { to ≤ length records.old / 9 }
    ensures { (room : List ℕ) → store_of 8 (lists records.new room) ≡ raised_run latest.sn latest.ts from (to - from) (store_of 8 (lists records.old room)) }
{
    for q in (from..to).step_by(64) {
        let n = (to - q).min(64);
        raise_part(records, q, n, latest);
    }
}

// Raises them at the indices in flight, front to back. The places are one run, or two round the ring's end.
fn raise(ring: SndRing, records: &mut [u32], latest: Ack)
    requires { Inside ring records.old }
    ensures { (room : List ℕ) → store_of 8 (lists records.new room) ≡ raised_from latest.sn latest.ts ring 0 ring.reach (store_of 8 (lists records.old room)) }
{
    let slots = snd_ring::slots_in(records.len());
    let start = ring.start as usize;
    let reach = ring.reach as usize;
    let first = reach.min(slots - start);
    raise_run(records, start, start + first, latest);
    raise_run(records, 0, reach - first, latest);
}

// What the acks of a datagram do to the flight records, if max_ack lies in what was sent and is not acked.
pub fn parse_fastack(sender: Sender, records: &mut [u32], latest: Option<Ack>)
    requires { Lies sender records.old }
    ensures { (room : List ℕ) → store_of 8 (lists records.new room) ≡ fastack_at latest sender (store_of 8 (lists records.old room)) }
{
    if let Some(ack) = latest {
        if sending::in_range(sender.snd_una, sender.snd_nxt, ack.sn) {
            raise(sender.ring, records, ack);
        }
    }
}

// Whether the send memory is well formed.
pub fn lent_fits(sender: Sender, records: &[u32], room: &[u8]) -> bool
    ensures { result ≡ send_lent sender (lists records.now room.now) }
{
    if !send_sizes(records.len(), room.len()) {
        return false;
    }
    let slots = snd_ring::slots_in(records.len());
    sender.send_numbers(slots) && sender.ring.marks_fit(&records[0..slots])
}

// Whether block and send memory are well formed, where `own` tells whether the block's own numbers are. A call is handed the part that it looks at
// and not the block, which would be laid out in memory for it.
pub fn fits(own: bool, sender: Sender, records: &[u32], room: &[u8]) -> bool
    ensures { result ≡ (own && send_lent sender (lists records.now room.now)) }
{
    own && lent_fits(sender, records, room)
}

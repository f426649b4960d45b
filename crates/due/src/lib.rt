// The fresh and resent segments of a flush: by their sizes alone, and written. Both passes go over the places in flight, one run of them or two round
// the ring's end, gaps passed over.
#![tactic(auto)]

ghost use Rattle.std.specs.Prelude.{◌≡◌, false, List, [], ◌∷◌, ◌++◌, ℕ, ◌+◌, ◌-◌, ◌*◌, ◌/◌, ◌≤◌, ◌<◌, ◌^◌, length, get_or};
ghost use Rattle.ring.specs.Lists.{lists};
ghost use Rattle.ring.specs.Records.{put, part_slot};
ghost use Rattle.snd_ring.specs.Store.{store_of, Sound};
ghost use Rattle.wire.specs.Header.{header_bytes};
ghost use Rattle.flushing.specs.Due.{due_of, goes_out};
ghost use Rattle.packing.specs.Packer.{sized};
ghost use Rattle.flight.specs.Places.{run_of, Each};
ghost use Rattle.flight.specs.Memory.{record_in, flight_places, waiting_places, size_at, sizes_over, fresh_sizes, pieces_over};
ghost use Rattle.due.specs.Pass.{Rung, pass, pass_over, Roomy, Fits};

use flushing::due::{Pace, Tally};
use flushing::headers::Told;
use packing::packer::Packer;
use packing::puts::put_header;
use snd_ring::SndRing;
use wire::Header;

// Whether what stands at place q would go out, gap or not.
fn goes(records: &[u32], q: usize, pace: Pace) -> bool
    requires q_lt_slots { q < length records.now / 9 }
    ensures { (room : List ℕ) → result ≡ goes_out (due_of pace (record_in (store_of 8 (lists records.now room)) q)) }
{
    let flown = flight::record_at(records, q).flown_by(pace);
    flown.due.goes_out()
}

// Whether what stands at place q may go out, gap or not, by one test for each reason: few rows do, and those are looked at further.
fn stirs(records: &[u32], q: usize, pace: Pace) -> bool
    requires q_lt_slots { q < length records.now / 9 }
    ensures { (room : List ℕ) → result ≡ false → goes_out (due_of pace (record_in (store_of 8 (lists records.now room)) q)) ≡ false }
{
    let record = flight::record_at(records, q);
    record.xmit == 0
        || serial::not_before(pace.current, record.resendts)
        || pace.resent <= record.fastack
}

// The segment at place q, if it goes out, by its size.
fn size_at(records: &[u32], q: usize, pace: Pace, mtu: usize, packer: Packer) -> Packer
    requires q_lt_slots { q < length records.now / 9 }
    requires q_bound { get_or records.now q 0 ≤ 1477 }
    requires used_bound { packer.start + packer.used + 1500 < 2 ^ 32 }
    requires count_bound { packer.count < 2 ^ 32 }
    ensures by_index { (room : List ℕ) → result ≡ sized mtu packer (size_at pace (store_of 8 (lists records.now room)) q) }
    ensures used_bound_2 { (result.start + result.used ≤ packer.start + packer.used + 1500) × (result.count ≤ packer.count + 1) }
{
    if !stirs(records, q, pace) {
        return packer;
    }
    let mark = records[q];
    if mark == 0 || !goes(records, q, pace) {
        return packer;
    }
    packer.size(mtu, wire::OVERHEAD + (mark - 1) as usize)
}

// The same of those at the places from `from` up to `to`.
fn size_run(
    records: &[u32],
    from: usize,
    to: usize,
    pace: Pace,
    mtu: usize,
    packer: Packer,
) -> Packer
    requires from_le_to { from ≤ to }
    requires to_in_bounds { to ≤ length records.now / 9 }
    requires to_bound { to ≤ 65535 }
    requires each { Each (λ (q : ℕ). get_or records.now q 0 ≤ 1477) (run_of from (to - from)) }
    requires used_bound { packer.start + packer.used < 2 ^ 31 }
    requires count_bound { packer.count < 2 ^ 31 }
    ensures by_index { (room : List ℕ) → result ≡ sized mtu packer (sizes_over pace (run_of from (to - from)) (store_of 8 (lists records.now room))) }
    ensures used_bound_2 { (result.start + result.used ≤ packer.start + packer.used + 1500 * (to - from)) × (result.count ≤ packer.count + (to - from)) }
{
    let mut p = packer;
    for q in from..to {
        p = size_at(records, q, pace, mtu, p);
    }
    p
}

// The segments in flight that go out, by their sizes; nothing changes.
pub fn due_sizes(ring: SndRing, records: &[u32], pace: Pace, mtu: usize, packer: Packer) -> Packer
    requires rung { Rung ring records.now }
    requires used_bound { packer.start + packer.used < 2 ^ 30 }
    requires count_bound { packer.count < 2 ^ 30 }
    ensures by_index { (room : List ℕ) → result ≡ sized mtu packer (sizes_over pace (flight_places ring (store_of 8 (lists records.now room))) (store_of 8 (lists records.now room))) }
    ensures used_bound_2 { (result.start + result.used ≤ packer.start + packer.used + 1500 * ring.reach) × (result.count ≤ packer.count + ring.reach) }
{
    let slots = snd_ring::slots_in(records.len());
    let runs = flight::runs_of(slots, ring.start as usize, 0, ring.reach as usize);
    let p = size_run(records, runs.from, runs.to, pace, mtu, packer);
    size_run(records, 0, runs.rest, pace, mtu, p)
}

// The segments at the places from `from` up to `to`, which leave the queue and so go out as fresh, by their sizes.
fn fresh_run(records: &[u32], from: usize, to: usize, mtu: usize, packer: Packer) -> Packer
    requires from_le_to { from ≤ to }
    requires to_in_bounds { to ≤ length records.now / 9 }
    requires to_bound { to ≤ 65535 }
    requires each { Each (λ (q : ℕ). (0 < get_or records.now q 0) × (get_or records.now q 0 ≤ 1477)) (run_of from (to - from)) }
    requires used_bound { packer.start + packer.used < 2 ^ 31 }
    requires count_bound { packer.count < 2 ^ 31 }
    ensures by_index { (room : List ℕ) → result ≡ sized mtu packer (fresh_sizes (run_of from (to - from)) (store_of 8 (lists records.now room))) }
    ensures used_bound_2 { (result.start + result.used ≤ packer.start + packer.used + 1500 * (to - from)) × (result.count ≤ packer.count + (to - from)) }
{
    let mut p = packer;
    for q in from..to {
        p = p.size(mtu, wire::OVERHEAD + (records[q] - 1) as usize);
    }
    p
}

// The first k that wait, which are about to leave the queue, by their sizes; nothing changes.
pub fn fresh_sizes(ring: SndRing, records: &[u32], k: u32, mtu: usize, packer: Packer) -> Packer
    requires rung { Rung ring records.now }
    requires k_le_unsent { k ≤ ring.unsent }
    requires used_bound { packer.start + packer.used < 2 ^ 30 }
    requires count_bound { packer.count < 2 ^ 30 }
    ensures by_index { (room : List ℕ) → result ≡ sized mtu packer (fresh_sizes (waiting_places ring (store_of 8 (lists records.now room)) k) (store_of 8 (lists records.now room))) }
    ensures used_bound_2 { (result.start + result.used ≤ packer.start + packer.used + 1500 * k) × (result.count ≤ packer.count + k) }
{
    let slots = snd_ring::slots_in(records.len());
    let runs = flight::runs_of(slots, ring.start as usize, ring.reach as usize, k as usize);
    let p = fresh_run(records, runs.from, runs.to, mtu, packer);
    fresh_run(records, 0, runs.rest, mtu, p)
}

// A header, and behind it the first n bytes of the slot at place q, from out[at] on.
fn put_piece(header: Header, room: &[u8], q: usize, n: usize, out: &mut [u8], at: usize)
    requires q_in_bounds { q * 1476 + 1476 ≤ length room.now }
    requires n_bound { n ≤ 1476 }
    requires n_in_bounds { at + (24 + n) ≤ length out.old }
    ensures { out.new ≡ put out.old at (header_bytes header ++ part_slot 1476 room.now q 0 n) }
{
    put_header(header, out, at);
    ring::get_payload(room, q, n, out, at + wire::OVERHEAD);
}

// How far the packing has come, and what was counted.
#[derive(Clone, Copy)]
pub struct Written {
    pub packer: Packer,
    pub tally: Tally,
}

// What a flush goes by at each place: what its headers tell, what decides whether a segment goes out, how often one is sent before the link is dead, and
// the most bytes of a datagram.
#[derive(Clone, Copy)]
pub struct Way {
    pub told: Told,
    pub pace: Pace,
    pub dead_link: u32,
    pub mtu: usize,
}

// The segment at place q, if it goes out: its bytes behind those that are there, the length of the datagram that goes out before it, if one does, its
// row afterwards, and what is counted of it. The row of one that does not go out stays.
fn write_at(
    records: &mut [u32],
    room: &[u8],
    q: usize,
    way: Way,
    out: &mut [u8],
    lengths: &mut [u16],
    before: Written,
) -> Written
    requires q_lt_slots { q < length records.old / 9 }
    requires fits { Fits way.told way.pace way.mtu (q ∷ []) (pass (store_of 8 (lists records.old room.now)) out.old lengths.old before.packer before.tally) }
    ensures { pass (store_of 8 (lists records.new room.now)) out.new lengths.new result.packer result.tally
        ≡ pass_over way.told way.pace way.dead_link way.mtu (q ∷ []) (pass (store_of 8 (lists records.old room.now)) out.old lengths.old before.packer before.tally) }
{
    let flown = flight::record_at(records, q).flown_by(way.pace);
    let due = flown.due;
    if !due.goes_out() {
        return before;
    }
    let mark = records[q];
    if mark == 0 {
        return before;
    }
    let after = flown.after;
    let n = (mark - 1) as usize;
    let packer = before.packer;
    let at = packer.start + packer.used;
    put_piece(way.told.push_head(after, mark - 1), room, q, n, out, at);
    flight::put_record_at(records, q, after);
    let further = packer.cut(way.mtu, wire::OVERHEAD + n, lengths);
    Written {
        packer: further,
        tally: before.tally.with_sent(way.dead_link, due, after.xmit),
    }
}

// The same of those at the places from `from` up to `to`.
fn write_run(
    records: &mut [u32],
    room: &[u8],
    from: usize,
    to: usize,
    way: Way,
    out: &mut [u8],
    lengths: &mut [u16],
    before: Written,
) -> Written
    requires from_le_to { from ≤ to }
    requires to_in_bounds { to ≤ length records.old / 9 }
    requires mtu_bound { way.mtu ≤ 1500 }
    requires fits { Fits way.told way.pace way.mtu (run_of from (to - from)) (pass (store_of 8 (lists records.old room.now)) out.old lengths.old before.packer before.tally) }
    ensures { pass (store_of 8 (lists records.new room.now)) out.new lengths.new result.packer result.tally
        ≡ pass_over way.told way.pace way.dead_link way.mtu (run_of from (to - from)) (pass (store_of 8 (lists records.old room.now)) out.old lengths.old before.packer before.tally) }
{
    let mut w = before;
    for q in from..to {
        w = write_at(records, room, q, way, out, lengths, w);
    }
    w
}

// The segments in flight that go out, written.
pub fn due_write(
    ring: SndRing,
    records: &mut [u32],
    room: &[u8],
    way: Way,
    out: &mut [u8],
    lengths: &mut [u16],
    before: Written,
) -> Written
    requires sound { Sound 8 ring (store_of 8 (lists records.old room.now)) }
    requires mtu_bound { way.mtu ≤ 1500 }
    requires roomy { Roomy way.mtu before.packer out.old lengths.old (pieces_over way.told way.pace (flight_places ring (store_of 8 (lists records.old room.now))) (store_of 8 (lists records.old room.now))) }
    ensures { pass (store_of 8 (lists records.new room.now)) out.new lengths.new result.packer result.tally
        ≡ pass_over way.told way.pace way.dead_link way.mtu (flight_places ring (store_of 8 (lists records.old room.now))) (pass (store_of 8 (lists records.old room.now)) out.old lengths.old before.packer before.tally) }
{
    let slots = snd_ring::slots_in(records.len());
    let runs = flight::runs_of(slots, ring.start as usize, 0, ring.reach as usize);
    let w = write_run(records, room, runs.from, runs.to, way, out, lengths, before);
    write_run(records, room, 0, runs.rest, way, out, lengths, w)
}

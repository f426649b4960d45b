// What a flush does to the send ring in lent memory.
#![tactic(auto)]

ghost use Rattle.std.specs.Prelude.{◌≡◌, List, ℕ, ◌+◌, ◌/◌, ◌≤◌, ◌<◌, ◌-◌, length};
ghost use Rattle.ring.specs.Lists.{lists};
ghost use Rattle.snd_ring.specs.Store.{store_of};
ghost use Rattle.transmit.specs.Memory.{side};
ghost use Rattle.transmit.specs.Fits.{Lies, Inside};
ghost use Rattle.flushing.specs.Clocks.{tm_packet};
ghost use Rattle.flushing.specs.Due.{numbered};
ghost use Rattle.flight.specs.Places.{places_of, run_of, Covers};
ghost use Rattle.flight.specs.Memory.{record_in, renewed_at, flight_places, launched_over, launched_at, resendts_at, resendts_over, reckoned_of};

use block::sender::Sender;
use flushing::clock::nearest;
use flushing::due::Record;
use sending::column::{CONV, FASTACK, FRG, RESENDTS, RTO, SN, TS, XMIT};
use snd_ring::SndRing;

// The row at place q.
pub fn record_at(records: &[u32], q: usize) -> Record
    requires q_lt_slots { q < length records.now / 9 }
    ensures { (room : List ℕ) → result ≡ record_in (store_of 8 (lists records.now room)) q }
{
    Record {
        conv: snd_ring::number_at(records, q, CONV),
        frg: snd_ring::number_at(records, q, FRG),
        sn: snd_ring::number_at(records, q, SN),
        ts: snd_ring::number_at(records, q, TS),
        resendts: snd_ring::number_at(records, q, RESENDTS),
        rto: snd_ring::number_at(records, q, RTO),
        fastack: snd_ring::number_at(records, q, FASTACK),
        xmit: snd_ring::number_at(records, q, XMIT),
    }
}

// The row at place q becomes that of the record; every other number stays.
pub fn put_record_at(records: &mut [u32], q: usize, record: Record)
    requires q_lt_slots { q < length records.old / 9 }
    ensures { (room : List ℕ) → store_of 8 (lists records.new room) ≡ renewed_at (store_of 8 (lists records.old room)) q «record» }
{
    let row = [
        record.conv,
        record.frg,
        record.sn,
        record.ts,
        record.resendts,
        record.rto,
        record.fastack,
        record.xmit,
    ];
    let slots = snd_ring::slots_in(records.len());
    ring::put_record(&mut records[slots..], q, &row);
}

// The places of a row of indices: those from `from` up to `to`, and then the first `rest`.
#[derive(Clone, Copy)]
pub struct Runs {
    pub from: usize,
    pub to: usize,
    pub rest: usize,
}

// The places of the n indices from `from` on: one run, or two round the ring's end.
pub fn runs_of(slots: usize, start: usize, from: usize, n: usize) -> Runs
    requires slots_bound { slots ≤ 65535 }
    requires start_lt_slots { start < slots }
    requires n_bound { from + n ≤ slots }
    ensures { Covers slots start from n result }
{
    let q = ring::place_of(slots, start, from);
    let left = slots - q;
    if n <= left {
        return Runs {
            from: q,
            to: q + n,
            rest: 0,
        };
    }
    Runs {
        from: q,
        to: slots,
        rest: n - left,
    }
}

// The first k that wait, which leave the queue, get their numbers, the first of them snd_nxt.
fn launch_rows(
    ring: SndRing,
    records: &mut [u32],
    k: usize,
    conv: u32,
    snd_nxt: u32,
    current: u32,
    rx_rto: u32,
)
    requires inside { Inside ring records.old }
    requires k_bound { ring.reach + k ≤ length records.old / 9 }
    ensures { (room : List ℕ) → store_of 8 (lists records.new room)
        ≡ launched_over conv current rx_rto snd_nxt (places_of (length records.old / 9) ring.start ring.reach k) (store_of 8 (lists records.old room)) }
{
    let slots = snd_ring::slots_in(records.len());
    let start = ring.start as usize;
    let reach = ring.reach as usize;
    let mut sn = snd_nxt;
    for i in 0..k {
        let q = ring::place_of(slots, start, reach + i);
        let record = record_at(records, q);
        put_record_at(records, q, record.numbered(conv, sn, current, rx_rto));
        sn = sn.wrapping_add(1);
    }
}

// The first k that wait leave the queue and are in flight.
pub fn launch(
    sender: Sender,
    records: &mut [u32],
    k: u32,
    conv: u32,
    current: u32,
    rx_rto: u32,
) -> Sender
    requires lies { Lies sender records.old }
    requires k_le_unsent { k ≤ sender.ring.unsent }
    ensures { (room : List ℕ) → side result (store_of 8 (lists records.new room))
        ≡ launched_at conv current rx_rto k sender (store_of 8 (lists records.old room)) }
{
    let ring = sender.ring;
    launch_rows(
        ring,
        records,
        k as usize,
        conv,
        sender.snd_nxt,
        current,
        rx_rto,
    );
    Sender {
        snd_nxt: sender.snd_nxt.wrapping_add(k),
        ring: SndRing {
            reach: ring.reach + k,
            flying: ring.flying + k,
            unsent: ring.unsent - k,
            ..ring
        },
        ..sender
    }
}

// The wait for the segments, with that at place q; a gap is passed over.
fn tm_at(records: &[u32], q: usize, current: u32, tm: u32) -> u32
    requires q_lt_slots { q < length records.now / 9 }
    ensures { (room : List ℕ) → result ≡ tm_packet current (resendts_at (store_of 8 (lists records.now room)) q) tm }
{
    if records[q] == 0 {
        return tm;
    }
    nearest(current, snd_ring::number_at(records, q, RESENDTS), tm)
}

// A wait, the time when it is over, and how many times there are from then on before those that are past.
#[derive(Clone, Copy)]
pub struct Reckoning {
    pub tm: u32,
    pub until: u32,
    pub ahead: u32,
}

// How many times there are from a wait's end on before those that are past.
fn ahead_of(tm: u32) -> u32
    ensures { result ≡ 2147483648 - tm }
{
    0x8000_0000u32.saturating_sub(tm)
}

// The reckoning of a wait.
fn reckoned(current: u32, tm: u32) -> Reckoning
    ensures { result ≡ reckoned_of current tm }
{
    Reckoning {
        tm,
        until: current.wrapping_add(tm),
        ahead: ahead_of(tm),
    }
}

// The same as tm_at of a wait that is reckoned: a segment that is to be resent when the wait is over or later leaves it by one test, gap or not.
fn tm_step(records: &[u32], q: usize, current: u32, w: Reckoning) -> Reckoning
    requires q_lt_slots { q < length records.now / 9 }
    requires w_value { w ≡ reckoned_of current w.tm }
    ensures { (room : List ℕ) → result ≡ reckoned_of current (tm_packet current (resendts_at (store_of 8 (lists records.now room)) q) w.tm) }
{
    let resendts = snd_ring::number_at(records, q, RESENDTS);
    if resendts.wrapping_sub(w.until) < w.ahead {
        return w;
    }
    reckoned(current, tm_at(records, q, current, w.tm))
}

// The same with those at the places from `from` up to `to`.
fn tm_run(records: &[u32], from: usize, to: usize, current: u32, tm: u32) -> u32
    requires from_le_to { from ≤ to }
    requires to_le_slots { to ≤ length records.now / 9 }
    ensures { (room : List ℕ) → result ≡ tm_packet current (resendts_over (run_of from (to - from)) (store_of 8 (lists records.now room))) tm }
{
    let mut w = reckoned(current, tm);
    for q in from..to {
        w = tm_step(records, q, current, w);
    }
    w.tm
}

// How long check waits for the segments in flight, and at most tm.
pub fn tm_packet(ring: SndRing, records: &[u32], current: u32, tm: u32) -> u32
    requires { Inside ring records.now }
    ensures { (room : List ℕ) → result ≡ tm_packet current (resendts_over (flight_places ring (store_of 8 (lists records.now room))) (store_of 8 (lists records.now room))) tm }
{
    let slots = snd_ring::slots_in(records.len());
    let runs = runs_of(slots, ring.start as usize, 0, ring.reach as usize);
    let least = tm_run(records, runs.from, runs.to, current, tm);
    tm_run(records, 0, runs.rest, current, least)
}

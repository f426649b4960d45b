// A ring of slots in lent memory: the place of an index, records and payloads by their place, and the count that a test makes of its words.
#![tactic(auto)]

ghost use Rattle.std.specs.Prelude.{◌≡◌, [], ◌∷◌, ◌++◌, ◌+◌, ◌-◌, ◌*◌, ◌<◌, ◌≤◌, length, take, drop};
ghost use Rattle.std.specs.Prelude as list;
ghost use Rattle.ring.specs.Places.{place};
ghost use Rattle.ring.specs.Records.{put, put_slot, part_slot, number_at};
ghost use Rattle.ring.specs.Counting.{count_in, count};

// The place of index i.
#[tactic(auto, unfolding(crate::specs::Places::place))]
pub fn place_of(slots: usize, start: usize, i: usize) -> usize
    requires slots_bound { slots ≤ 65535 }
    requires start_lt_slots { start < slots }
    requires i_le_slots { i ≤ slots }
    ensures { (result ≡ place slots start i) × (result < slots) }
{
    let p = start + i;
    if p < slots { p } else { p - slots }
}

// How many of the words in a run are at least each of two bounds.
#[derive(Clone, Copy, Debug, PartialEq, Eq)]
pub struct Counts {
    pub low: u32,
    pub high: u32,
}

// The counts of a run of words. No exit inside the loop, so that it compiles to vector instructions.
#[tactic(auto, using(crate::proofs::Counting::of_run))]
fn scan(run: &[u32], low: u32, high: u32) -> Counts
    requires { length run.now ≤ 65535 }
    ensures { (result.low ≡ count_in low run.now 0 (length run.now)) × (result.high ≡ count_in high run.now 0 (length run.now)) }
{
    let mut counts = Counts { low: 0, high: 0 };
    for word in run {
        counts.low += u32::from(low <= *word);
        counts.high += u32::from(high <= *word);
    }
    counts
}

// The counts of the n indices from `from` on, which are one run of places or two.
#[tactic(auto, using(crate::proofs::Counting::of_runs))]
pub fn tally(words: &[u32], start: usize, from: usize, n: usize, low: u32, high: u32) -> Counts
    requires words_len_bound { length words.now ≤ 65535 }
    requires start_in_bounds { start < length words.now }
    requires n_in_bounds { from + n ≤ length words.now }
    ensures { (result.low ≡ count low words.now start from n) × (result.high ≡ count high words.now start from n) }
{
    let slots = words.len();
    let a = place_of(slots, start, from);
    let left = slots - a;
    if n <= left {
        return scan(&words[a..a + n], low, high);
    }
    let x = scan(&words[a..], low, high);
    let y = scan(&words[..n - left], low, high);
    Counts {
        low: x.low + y.low,
        high: x.high + y.high,
    }
}

// Copies src to the front of dst; what lies behind it stays.
pub fn copy<T: Copy>(src: &[T], dst: &mut [T])
    requires { length src.now ≤ length dst.old }
    ensures { dst.new ≡ take (length src.now) src.now ++ drop (length src.now) dst.old }
{
    dst[..src.len()].copy_from_slice(src);
}

// Writes a slot's numbers, as many as there are in a record; the other slots stay. Number by number: by copy_from_slice, a call behind a test for
// overlap, a push takes a twentieth longer and a send of 100 KiB a tenth, and the array of `lay` is as wide as a payload.
pub fn put_record(records: &mut [u32], slot: usize, numbers: &[u32])
    requires { slot * length numbers.now + length numbers.now ≤ length records.old }
    ensures { records.new ≡ put_slot (length numbers.now) records.old slot 0 numbers.now }
{
    let base = slot * numbers.len();
    let mut i = 0;
    while i < numbers.len() {
        records[base + i] = numbers[i];
        i += 1;
    }
}

// Number k of a slot's record.
pub fn number_at(records: &[u32], width: usize, slot: usize, k: usize) -> u32
    requires { slot * width + k < length records.now }
    ensures { result ≡ number_at width records.now slot k }
{
    records[slot * width + k]
}

// Writes number k of a slot's record; every other number stays.
#[tactic(auto, using(crate::proofs::Rows::put_one))]
pub fn put_number(records: &mut [u32], width: usize, slot: usize, k: usize, x: u32)
    requires { slot * width + k < length records.old }
    ensures { records.new ≡ put_slot width records.old slot k (x ∷ []) }
{
    records[slot * width + k] = x;
}

// Copies src to dst from place `at` on; every other byte stays. By way of an array: that is one memmove, where a copy_from_slice over
// the part of dst is compiled to loops behind a test for overlap.
fn lay(dst: &mut [u8], at: usize, src: &[u8])
    requires src_bound { length src.now ≤ 1476 }
    requires inside { at + length src.now ≤ length dst.old }
    ensures { dst.new ≡ put dst.old at src.now }
{
    let mut t = [0u8; 1476];
    copy(src, &mut t);
    copy(&t[..src.len()], &mut dst[at..]);
}

// Copies src to byte `at` of a slot; every other byte stays.
pub fn put_payload(room: &mut [u8], slot: usize, at: usize, src: &[u8])
    requires slot_in_bounds { slot * 1476 + 1476 ≤ length room.old }
    requires src_bound { at + length src.now ≤ 1476 }
    ensures { room.new ≡ put_slot 1476 room.old slot at src.now }
{
    lay(room, slot * 1476 + at, src);
}

// Copies a slot's first bytes to byte `to` of out; every other byte of out stays.
#[tactic(auto, using(crate::proofs::Rows::part_range))]
pub fn get_payload(room: &[u8], slot: usize, length: usize, out: &mut [u8], to: usize)
    requires slot_bound { slot * 1476 + 1476 ≤ list.length room.now }
    requires length_len_bound { length ≤ 1476 }
    requires length_bound { to + length ≤ list.length out.old }
    ensures { out.new ≡ put out.old to (part_slot 1476 room.now slot 0 length) }
{
    let base = slot * 1476;
    lay(out, to, &room[base..base + length]);
}

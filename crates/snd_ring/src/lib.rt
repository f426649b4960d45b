// The send ring in lent memory, with gaps: a slot is found by arithmetic. Of the records the first are the marks, one for each slot, and behind them
// stand the rows, eight numbers for each.
#![tactic(auto)]

ghost use Rattle.std.specs.Prelude.{◌≡◌, List, [], ℕ, ◌+◌, ◌-◌, ◌*◌, ◌/◌, ◌<◌, ◌≤◌, length, get_or};
ghost use Rattle.ring.specs.Lists.{lists};
ghost use Rattle.ring.specs.Records.{put_slot, part_slot, number_at};
ghost use Rattle.snd_ring.specs.Marks.{live_of, mark_at, Within, passed};
ghost use Rattle.snd_ring.specs.Store.{store_of, segment, Sized, Shaped, Sound, marks_fit};
ghost use Rattle.snd_ring.specs.Steps.{written, with_marks, renumbered, appended_ring, appended, launched, settled, dropped, gapped, taken_out, slid_one, slid, closed, closed_ring, last, filled};

// Index 0 stands at place `start`. The first `reach` indices are in flight, `flying` of them segments and the others gaps; the `unsent` indices behind
// them wait to be sent. The records and the room stay two slices, as a host lends them anew for each call (kcp_c).
#[derive(Clone, Copy, Debug, PartialEq, Eq)]
pub struct SndRing {
    pub start: u32,
    pub reach: u32,
    pub flying: u32,
    pub unsent: u32,
}

// The least mark of a segment, and the least one whose payload would not fit.
const SEGMENT: u32 = 1;

const FAULT: u32 = 1478;

// How many slots so many numbers of records have: a mark and eight numbers for each.
pub fn slots_in(numbers: usize) -> usize
    ensures { result ≡ numbers / 9 }
{
    numbers / 9
}

// Number k of the row at place q.
#[tactic(auto, using(crate::proofs::Splits::number_read))]
pub fn number_at(records: &[u32], q: usize, k: usize) -> u32
    requires q_lt_slots { q < length records.now / 9 }
    requires k_bound { k < 8 }
    ensures { result ≡ number_at 8 (store_of 8 (lists records.now [])).rows q k }
{
    records[slots_in(records.len()) + q * 8 + k]
}

// Number k of the row at place q becomes x; every other number stays.
#[tactic(auto, using(crate::proofs::Splits::numbers))]
pub fn put_number(records: &mut [u32], q: usize, k: usize, x: u32)
    requires q_lt_slots { q < length records.old / 9 }
    requires k_bound { k < 8 }
    ensures { (room : List ℕ) → store_of 8 (lists records.new room) ≡ renumbered 8 (store_of 8 (lists records.old room)) q k x }
{
    records[slots_in(records.len()) + q * 8 + k] = x;
}

impl SndRing {
    // Whether the marks in use are sound, `flying` counts the segments in flight, and the first index in flight is no gap.
    #[tactic(auto, unfolding(crate::specs::Store::marks_fit))]
    pub fn marks_fit(self, marks: &[u32]) -> bool
        requires within { Within marks.now self.start }
        requires unsent_in_bounds { self.reach + self.unsent ≤ length marks.now }
        ensures { result ≡ marks_fit self marks.now }
    {
        let start = self.start as usize;
        let reach = self.reach as usize;
        let flight = ring::tally(marks, start, 0, reach, SEGMENT, FAULT);
        if flight.high != 0 || flight.low != self.flying {
            return false;
        }
        let waiting = ring::tally(marks, start, reach, self.unsent as usize, SEGMENT, FAULT);
        waiting.high == 0 && waiting.low == self.unsent && (reach == 0 || marks[start] != 0)
    }

    // One segment more waits, behind the others.
    #[tactic(auto, using(crate::proofs::Splits::lengths))]
    pub fn append(
        self,
        records: &mut [u32],
        room: &mut [u8],
        row: &[u32],
        payload: &[u8],
    ) -> SndRing
        requires shaped { Shaped 8 self (store_of 8 (lists records.old room.old)) }
        requires unsent_in_bounds { self.reach + self.unsent < length records.old / 9 }
        requires row_len { length row.now ≡ 8 }
        requires payload_len_bound { length payload.now ≤ 1476 }
        ensures { (result ≡ appended_ring self)
            × (store_of 8 (lists records.new room.new)
            ≡ appended 8 self (store_of 8 (lists records.old room.old)) (segment row.now payload.now)) }
    {
        let i = self.reach as usize + self.unsent as usize;
        let q = ring::place_of(slots_in(records.len()), self.start as usize, i);
        write(records, room, q, row, payload);
        SndRing {
            unsent: self.unsent + 1,
            ..self
        }
    }

    // The first segment that waits is in flight; no memory moves.
    pub fn launch(self) -> SndRing
        requires unsent_nonzero { 0 < self.unsent }
        requires reach_bound { self.reach ≤ 65535 }
        requires flying_bound { self.flying ≤ 65535 }
        ensures { result ≡ launched self }
    {
        SndRing {
            reach: self.reach + 1,
            flying: self.flying + 1,
            unsent: self.unsent - 1,
            ..self
        }
    }

    // Where nothing is in use, the ring starts at place 0.
    #[tactic(auto, unfolding(crate::specs::Steps::settled))]
    fn settle(self) -> SndRing
        requires reach_bound { self.reach ≤ 65535 }
        requires unsent_bound { self.unsent ≤ 65535 }
        ensures { result ≡ settled self }
    {
        if self.reach + self.unsent == 0 {
            SndRing { start: 0, ..self }
        } else {
            self
        }
    }

    // The first k segments in flight leave, and the gaps behind them.
    #[tactic(auto, using(crate::proofs::Steps::dropped_by))]
    pub fn drop_front(self, marks: &[u32], k: u32) -> SndRing
        requires within { Within marks.now self.start }
        requires unsent_in_bounds { self.reach + self.unsent ≤ length marks.now }
        requires k_le_flying { k ≤ self.flying }
        ensures { result ≡ dropped self marks.now k }
    {
        let slots = marks.len();
        let start = self.start as usize;
        let reach = self.reach as usize;
        let t = passed_by(marks, start, reach, k as usize);
        let q = ring::place_of(slots, start, t);
        SndRing {
            start: q as u32,
            reach: (reach - t) as u32,
            flying: self.flying - k,
            ..self
        }
        .settle()
    }

    // The segment at index i in flight becomes a gap, and gaps at the front leave.
    pub fn take_out(self, records: &mut [u32], i: usize) -> SndRing
        requires records_len_bound { length records.old / 9 ≤ 65535 }
        requires start_in_bounds { self.start < length records.old / 9 }
        requires unsent_in_bounds { self.reach + self.unsent ≤ length records.old / 9 }
        requires i_lt_reach { i < self.reach }
        requires flying_nonzero { 0 < self.flying }
        ensures { (room : List ℕ) → (result ≡ taken_out self (store_of 8 (lists records.old room)).marks i)
            × (store_of 8 (lists records.new room) ≡ with_marks (store_of 8 (lists records.old room)) (gapped self (store_of 8 (lists records.old room)).marks i)) }
    {
        let slots = slots_in(records.len());
        let q = ring::place_of(slots, self.start as usize, i);
        records[q] = 0;
        let less = SndRing {
            flying: self.flying - 1,
            ..self
        };
        less.drop_front(&records[0..slots], 0)
    }

    // Closes the gaps in flight: its segments are moved toward the back, so that reach is flying.
    #[tactic(auto, using(crate::proofs::Splits::lengths))]
    pub fn close(self, records: &mut [u32], room: &mut [u8]) -> SndRing
        requires { Sound 8 self (store_of 8 (lists records.old room.old)) }
        ensures { (result ≡ closed_ring (length records.old / 9) self)
            × (store_of 8 (lists records.new room.new) ≡ closed 8 self (store_of 8 (lists records.old room.old))) }
    {
        let start = self.start as usize;
        let reach = self.reach as usize;
        let gaps = (self.reach - self.flying) as usize;
        let q = ring::place_of(slots_in(records.len()), start, gaps);
        slide_all(records, room, start, reach);
        SndRing {
            start: q as u32,
            reach: self.flying,
            ..self
        }
        .settle()
    }

    // The bytes are put behind the payload of the last segment that waits, and number k of its row becomes x.
    #[tactic(auto, using(crate::proofs::Splits::lengths))]
    pub fn fill(self, records: &mut [u32], room: &mut [u8], bytes: &[u8], k: usize, x: u32)
        requires shaped { Shaped 8 self (store_of 8 (lists records.old room.old)) }
        requires unsent_nonzero { 0 < self.unsent }
        requires nonzero { 0 < mark_at (store_of 8 (lists records.old room.old)).marks self.start (last self) }
        requires bytes_bound { mark_at (store_of 8 (lists records.old room.old)).marks self.start (last self) + length bytes.now ≤ 1477 }
        requires k_bound { k < 8 }
        ensures { store_of 8 (lists records.new room.new)
            ≡ filled 8 self (store_of 8 (lists records.old room.old)) bytes.now k x }
    {
        let i = self.reach as usize + self.unsent as usize - 1;
        let q = ring::place_of(slots_in(records.len()), self.start as usize, i);
        let mark = records[q];
        ring::put_payload(room, q, (mark - 1) as usize, bytes);
        records[q] = mark + bytes.len() as u32;
        put_number(records, q, k, x);
    }
}

// Puts a mark, the row and the payload into the slot at place q; every other slot stays.
fn write(records: &mut [u32], room: &mut [u8], q: usize, row: &[u32], payload: &[u8])
    requires sized { Sized 8 (store_of 8 (lists records.old room.old)) }
    requires q_in_bounds { q < length records.old / 9 }
    requires row_len { length row.now ≡ 8 }
    requires payload_len_bound { length payload.now ≤ 1476 }
    ensures { store_of 8 (lists records.new room.new)
        ≡ written 8 (store_of 8 (lists records.old room.old)) q (length payload.now + 1) row.now payload.now }
{
    let slots = slots_in(records.len());
    ring::put_record(&mut records[slots..], q, row);
    records[q] = (payload.len() + 1) as u32;
    ring::put_payload(room, q, 0, payload);
}

// How many of the first n indices are passed until k segments are, and the gaps behind them.
#[tactic(auto, using(crate::proofs::Marks::of_passed))]
fn passed_by(marks: &[u32], start: usize, n: usize, k: usize) -> usize
    requires within { Within marks.now start }
    requires n_in_bounds { n ≤ length marks.now }
    ensures { (result ≤ n) × (result ≡ passed (mark_at marks.now start) 0 n k) }
{
    let mut left = k;
    for i in 0..n {
        let live = usize::from(SEGMENT <= marks[ring::place_of(marks.len(), start, i)]);
        if left < live {
            return i;
        }
        left -= live;
    }
    n
}

// Copies the row at place a to place b.
fn carry(rows: &mut [u32], a: usize, b: usize)
    requires a_in_bounds { a * 8 + 8 ≤ length rows.old }
    requires b_in_bounds { b * 8 + 8 ≤ length rows.old }
    ensures { rows.new ≡ put_slot 8 rows.old b 0 (part_slot 8 rows.old a 0 8) }
{
    rows.copy_within(a * 8..a * 8 + 8, b * 8);
}

// Copies the n bytes at place a to place b. By way of an array: that is one memmove, where copy_within is compiled to loops.
fn shift(room: &mut [u8], a: usize, n: usize, b: usize)
    requires a_in_bounds { a * 1476 + 1476 ≤ length room.old }
    requires b_in_bounds { b * 1476 + 1476 ≤ length room.old }
    requires n_bound { n ≤ 1476 }
    ensures { room.new ≡ put_slot 1476 room.old b 0 (part_slot 1476 room.old a 0 n) }
{
    let from = a * 1476;
    let mut t = [0u8; 1476];
    ring::copy(&room[from..from + n], &mut t);
    ring::copy(&t[..n], &mut room[b * 1476..]);
}

// Where there is a segment at index i, puts it at the index before `to`; answers the index that the next one goes before.
#[tactic(auto, using(crate::proofs::Splits::lengths))]
fn slide(records: &mut [u32], room: &mut [u8], start: usize, i: usize, to: usize) -> usize
    requires sized { Sized 8 (store_of 8 (lists records.old room.old)) }
    requires start_in_bounds { start < length records.old / 9 }
    requires i_lt_to { i < to }
    requires to_in_bounds { to ≤ length records.old / 9 }
    requires i_bound { mark_at (store_of 8 (lists records.old room.old)).marks start i ≤ 1477 }
    ensures { (result ≡ to - live_of (mark_at (store_of 8 (lists records.old room.old)).marks start i))
        × (store_of 8 (lists records.new room.new) ≡ slid_one 8 (store_of 8 (lists records.old room.old)) start i to) }
{
    let slots = slots_in(records.len());
    let a = ring::place_of(slots, start, i);
    let mark = records[a];
    if mark == 0 {
        return to;
    }
    let next = to - 1;
    if next == i {
        return next;
    }
    let b = ring::place_of(slots, start, next);
    carry(&mut records[slots..], a, b);
    records[b] = mark;
    shift(room, a, (mark - 1) as usize, b);
    next
}

// Puts the segments at the first n indices, the last one first, at the indices before n.
fn slide_all(records: &mut [u32], room: &mut [u8], start: usize, n: usize)
    requires sized { Sized 8 (store_of 8 (lists records.old room.old)) }
    requires start_in_bounds { start < length records.old / 9 }
    requires n_in_bounds { n ≤ length records.old / 9 }
    requires by_index { (j : ℕ) → j < n → mark_at (store_of 8 (lists records.old room.old)).marks start j ≤ 1477 }
    ensures { store_of 8 (lists records.new room.new) ≡ slid 8 (store_of 8 (lists records.old room.old)) start n n }
{
    let mut to = n;
    for i in (0..n).rev() {
        to = slide(records, room, start, i, to);
    }
}

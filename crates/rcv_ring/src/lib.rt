// The receive ring in lent memory: the queue, and behind it the reach past the next number awaited, each slot found by arithmetic.
#![tactic(auto)]

ghost use Rattle.std.specs.Prelude.{◌≡◌, ℕ, ◌+◌, ◌-◌, ◌*◌, ◌<◌, ◌≤◌, ◌^◌, length};
ghost use Rattle.ring.specs.Lists.{lists};
ghost use Rattle.ring.specs.Places.{summed, along};
ghost use Rattle.ring.specs.Records.{put};
ghost use Rattle.ring.specs.Counting.{word_at};
ghost use Rattle.rcv_ring.specs.Words.{mark_of, word};
ghost use Rattle.rcv_ring.specs.Places.{frg_at, size_at, payload_at, Within, Shaped, Marked, Sound, marks_fit};
ghost use Rattle.rcv_ring.specs.Moves.{cleared, reached, stored_at, moved_by, dropped_by};
ghost use Rattle.rcv_ring.specs.Views.{held_at, ready_of};

// The place of the queue's front, how many segments are queued, and how many distances past them are held or known to be empty.
// No invariant of its own says that it lies within its records: a host keeps it as words (kcp_c), and lends the records anew for each call.
#[derive(Clone, Copy, Debug, PartialEq, Eq)]
pub struct RcvRing {
    pub start: u32,
    pub queued: u32,
    pub reach: u32,
}

// The least word of a segment, and the least one whose payload would not fit.
const SEGMENT: u32 = 65536;

const FAULT: u32 = 96862208;

impl RcvRing {
    // The word at index i.
    fn word_at(self, records: &[u32], i: usize) -> u32
        requires within { Within self records.now }
        requires i_in_bounds { i ≤ length records.now }
        ensures { result ≡ word_at records.now self.start i }
    {
        records[ring::place_of(records.len(), self.start as usize, i)]
    }

    // The frg at index i.
    pub fn frg_at(self, records: &[u32], i: usize) -> u32
        requires within { Within self records.now }
        requires i_in_bounds { i ≤ length records.now }
        ensures { result ≡ frg_at self records.now i }
    {
        self.word_at(records, i) % 65536
    }

    // How many bytes the payload at index i has, where a segment stands there; 0 where none does.
    pub fn size_at(self, records: &[u32], i: usize) -> usize
        requires within { Within self records.now }
        requires i_in_bounds { i ≤ length records.now }
        ensures { (result ≡ size_at self records.now i) × (result ≤ 65535) }
    {
        let mark = self.word_at(records, i) / 65536;
        mark.saturating_sub(1) as usize
    }

    // Whether the words of the queue and of the reach are as they have to be.
    #[tactic(auto, unfolding(crate::specs::Places::marks_fit))]
    pub fn marks_fit(self, records: &[u32]) -> bool
        requires within { Within self records.now }
        requires reach_in_bounds { self.queued + self.reach ≤ length records.now }
        ensures { result ≡ marks_fit self records.now }
    {
        let start = self.start as usize;
        let queued = self.queued as usize;
        let queue = ring::tally(records, start, 0, queued, SEGMENT, FAULT);
        if queue.low != self.queued || queue.high != 0 {
            return false;
        }
        let reach = ring::tally(records, start, queued, self.reach as usize, SEGMENT, FAULT);
        reach.high == 0
    }

    // Whether distance d is held.
    #[tactic(auto, using(crate::proofs::Words::marked_is), unfolding(crate::specs::Views::held_at))]
    pub fn is_held(self, records: &[u32], d: u32) -> bool
        requires within { Within self records.now }
        requires d_in_bounds { self.queued + d < length records.now }
        ensures { result ≡ held_at self records.now d }
    {
        d < self.reach && SEGMENT <= self.word_at(records, self.queued as usize + d as usize)
    }

    // Clears the words of the distances from the reach up to d, which are one run of places or two.
    fn clear(self, records: &mut [u32], d: u32)
        requires within { Within self records.old }
        requires d_in_bounds { self.queued + d < length records.old }
        ensures { records.new ≡ cleared self.start (self.queued + self.reach) (d - self.reach) records.old }
    {
        if d <= self.reach {
            return;
        }
        let slots = records.len();
        let n = d as usize - self.reach as usize;
        let a = ring::place_of(
            slots,
            self.start as usize,
            self.queued as usize + self.reach as usize,
        );
        let left = slots - a;
        if n <= left {
            records[a..a + n].fill(0);
            return;
        }
        records[a..].fill(0);
        records[..n - left].fill(0);
    }

    // Stores a segment at distance d, which is not held; what lies between the reach and d is not held either.
    pub fn store(
        self,
        records: &mut [u32],
        room: &mut [u8],
        d: u32,
        frg: u8,
        payload: &[u8],
    ) -> RcvRing
        requires shaped { Shaped self (lists records.old room.old) }
        requires d_in_bounds { self.queued + d < length records.old }
        requires payload_len_bound { length payload.now ≤ 1476 }
        ensures value { result ≡ reached self d }
        ensures room_after { lists records.new room.new ≡ stored_at self (lists records.old room.old) d frg payload.now }
    {
        self.clear(records, d);
        let p = ring::place_of(
            records.len(),
            self.start as usize,
            self.queued as usize + d as usize,
        );
        records[p] = (payload.len() as u32 + 1) * SEGMENT + frg as u32;
        ring::put_payload(room, p, 0, payload);
        RcvRing {
            reach: self.reach.max(d + 1),
            ..self
        }
    }

    // How many held segments move to a queue that has room for so many.
    #[tactic(auto, using(crate::proofs::Spans::of_leading), unfolding(crate::specs::Views::ready_of))]
    pub fn ready(self, records: &[u32], left: usize) -> usize
        requires within { Within self records.now }
        requires reach_in_bounds { self.queued + self.reach ≤ length records.now }
        ensures { (result ≡ ready_of self records.now left) × (result ≤ self.reach) }
    {
        let most = left.min(self.reach as usize);
        for i in 0..most {
            if self.word_at(records, self.queued as usize + i) < SEGMENT {
                return i;
            }
        }
        most
    }

    // The ring once the first k distances, which are held, are the queue's last; no memory moves.
    pub fn moved(self, k: usize) -> RcvRing
        requires k_le_reach { k ≤ self.reach }
        requires k_bound { self.queued + k < 2 ^ 32 }
        ensures { result ≡ moved_by k self }
    {
        RcvRing {
            queued: self.queued + k as u32,
            reach: self.reach - k as u32,
            ..self
        }
    }

    // Joins the payloads of the queue's first k segments, from the start of out on; bytes past them stay.
    pub fn copy_out(self, records: &[u32], room: &[u8], k: usize, out: &mut [u8])
        requires sound { Sound self (lists records.now room.now) }
        requires k_le_queued { k ≤ self.queued }
        requires k_in_bounds { summed (size_at self records.now) 0 k ≤ length out.old }
        ensures { out.new ≡ put out.old 0 (along (payload_at self (lists records.now room.now)) 0 k) }
    {
        let mut to = 0;
        for i in 0..k {
            let n = self.size_at(records, i);
            let p = ring::place_of(records.len(), self.start as usize, i);
            ring::get_payload(room, p, n, out, to);
            to += n;
        }
    }

    // The ring of so many slots without the queue's first k segments; an empty one starts at place 0.
    #[tactic(auto, unfolding(crate::specs::Moves::dropped_by))]
    pub fn dropped(self, slots: usize, k: usize) -> RcvRing
        requires slots_bound { slots ≤ 65535 }
        requires start_lt_slots { self.start < slots }
        requires k_le_queued { k ≤ self.queued }
        requires reach_bound { self.queued + self.reach ≤ slots }
        ensures { result ≡ dropped_by slots k self }
    {
        let queued = self.queued - k as u32;
        if queued + self.reach == 0 {
            return RcvRing {
                start: 0,
                queued: 0,
                reach: 0,
            };
        }
        RcvRing {
            start: ring::place_of(slots, self.start as usize, k) as u32,
            queued,
            ..self
        }
    }
}

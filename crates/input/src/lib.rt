// One segment and one datagram of input. The lists are handed one by one, as kcp_input has them.
#![tactic(auto)]

ghost use Rattle.std.specs.Prelude.{◌≡◌, List, ℕ, ◌+◌, ◌≤◌, ◌<◌, length};
ghost use Rattle.ring.specs.Lists.{Lists, lists};
ghost use Rattle.snd_ring.specs.Store.{Store, store_of};
ghost use Rattle.receive.specs.Fits.{Good};
ghost use Rattle.transmit.specs.Fits.{Lies};
ghost use Rattle.input.specs.Segment.{adopts, differs, verdict_of, adopted, begun, push_of, pushed_at, acked_at, asked, effect_at, SegmentAs};
ghost use Rattle.input.specs.Datagram.{grown_by, read_at, WalkedAs};

use block::Kcp;
use block::congestion::Congestion;
use block::refusal::Refusal;
use block::settings::Settings;
use sending::{Ack, Window};
use wire::{Header, Kind};

// The block so far, what the acks of the datagram gave, and how many of its pushes were skipped.
#[derive(Clone, Copy)]
pub struct Walk {
    pub block: Kcp,
    pub latest: Option<Ack>,
    pub skipped: u32,
}

// Whether a conv is adopted: it differs, and one is awaited.
#[tactic(auto, unfolding(crate::specs::Segment::adopts))]
fn adopts(own: u32, waiting: bool, met: u32) -> bool
    ensures { result ≡ adopts own waiting met }
{
    waiting && met != own
}

// Whether a conv is refused: it differs, and none is awaited.
#[tactic(auto, unfolding(crate::specs::Segment::differs))]
fn differs(own: u32, waiting: bool, met: u32) -> bool
    ensures { result ≡ differs own waiting met }
{
    !waiting && met != own
}

// What is to be done with the segment that has this header, by the numbers alone: its kind, or why it is refused.
fn judge(own: u32, waiting: bool, h: Header, left: usize) -> Result<Kind, Refusal>
    ensures { result ≡ verdict_of own waiting h left }
{
    if differs(own, waiting, h.conv) {
        return Err(Refusal::ConvInconsistent { own, met: h.conv });
    }
    if left < h.len as usize {
        return Err(Refusal::InvalidSegmentDataSize { len: h.len, left });
    }
    Ok(Kind::try_from(h.cmd)?)
}

// The block with a differing conv adopted, if one is awaited.
fn adopt(block: Kcp, met: u32) -> Kcp
    ensures { result ≡ adopted met block }
{
    let settings = block.settings;
    if !adopts(settings.conv, settings.input_conv, met) {
        return block;
    }
    Kcp {
        settings: Settings {
            conv: met,
            input_conv: false,
            ..settings
        },
        ..block
    }
}

// The block with the peer's window, and what una leaves of the sending side.
fn begin(block: Kcp, snd_records: &[u32], h: Header) -> Kcp
    requires { Lies block.sender snd_records.now }
    ensures { (room : List ℕ) → result ≡ begun h block (store_of 8 (lists snd_records.now room)) }
{
    Kcp {
        congestion: Congestion {
            rmt_wnd: h.wnd,
            ..block.congestion
        },
        sender: transmit::parse_una(block.sender, snd_records, h.una),
        ..block
    }
}

// A push, with the receive memory and the ack list.
fn push(
    walk: Walk,
    rcv_records: &mut [u32],
    rcv_room: &mut [u8],
    acks: &mut [u32],
    h: Header,
    payload: &[u8],
) -> Walk
    requires good { Good walk.block.receiver (lists rcv_records.old rcv_room.old) }
    requires payload_len_bound { length payload.now ≤ 1476 }
    requires acks_len_bound { length acks.old ≤ 8192 }
    requires skipped_bound { walk.skipped ≤ 62 }
    ensures { (snd : Store) → record { block = result.block; latest = result.latest; skipped = result.skipped; rcv = lists rcv_records.new rcv_room.new; acks = acks.new; snd = snd }
        ≡ pushed_at (push_of h payload.now) h.ts (record { block = walk.block; latest = walk.latest; skipped = walk.skipped; rcv = lists rcv_records.old rcv_room.old; acks = acks.old; snd = snd }) }
{
    let block = walk.block;
    let out = receive::push(
        block.receiver,
        block.acklist,
        rcv_records,
        rcv_room,
        acks,
        h.sn,
        h.frg,
        h.ts,
        payload,
    );
    Walk {
        skipped: walk.skipped + out.skipped,
        block: Kcp {
            receiver: out.receiver,
            acklist: out.acklist,
            ..block
        },
        ..walk
    }
}

// An ack, with the records of the send side: the round trip is measured, the segment removed, and the latest ack kept.
fn ack(walk: Walk, snd_records: &mut [u32], h: Header) -> Walk
    requires { Lies walk.block.sender snd_records.old }
    ensures { (rcv : Lists) (acks room : List ℕ) → record { block = result.block; latest = result.latest; skipped = result.skipped; rcv = rcv; acks = acks; snd = store_of 8 (lists snd_records.new room) }
        ≡ acked_at h (record { block = walk.block; latest = walk.latest; skipped = walk.skipped; rcv = rcv; acks = acks; snd = store_of 8 (lists snd_records.old room) }) }
{
    let block = walk.block;
    let clock = block.clock;
    let sender = transmit::parse_ack(block.sender, snd_records, h.sn);
    let mut measured = block.estimator;
    measured.update_ack(clock.current, h.ts, clock.interval);
    Walk {
        block: Kcp {
            estimator: measured,
            sender,
            ..block
        },
        latest: Some(Ack { sn: h.sn, ts: h.ts }.behind(walk.latest)),
        ..walk
    }
}

// An ask: the tell bit is set.
fn ask(walk: Walk) -> Walk
    ensures { result ≡ record { block = asked walk.block; latest = walk.latest; skipped = walk.skipped } }
{
    let block = walk.block;
    Walk {
        block: Kcp {
            probe: receive::tell(block.probe),
            ..block
        },
        ..walk
    }
}

// What a segment of this kind does.
fn act(
    walk: Walk,
    rcv_records: &mut [u32],
    rcv_room: &mut [u8],
    acks: &mut [u32],
    snd_records: &mut [u32],
    kind: Kind,
    h: Header,
    payload: &[u8],
) -> Walk
    requires good { Good walk.block.receiver (lists rcv_records.old rcv_room.old) }
    requires lies { Lies walk.block.sender snd_records.old }
    requires payload_len_bound { length payload.now ≤ 1476 }
    requires acks_len_bound { length acks.old ≤ 8192 }
    requires skipped_bound { walk.skipped ≤ 62 }
    ensures { (room : List ℕ) → record { block = result.block; latest = result.latest; skipped = result.skipped; rcv = lists rcv_records.new rcv_room.new; acks = acks.new; snd = store_of 8 (lists snd_records.new room) }
        ≡ effect_at kind h payload.now (record { block = walk.block; latest = walk.latest; skipped = walk.skipped; rcv = lists rcv_records.old rcv_room.old; acks = acks.old; snd = store_of 8 (lists snd_records.old room) }) }
{
    match kind {
        Kind::Push => push(walk, rcv_records, rcv_room, acks, h, payload),
        Kind::Ack => ack(walk, snd_records, h),
        Kind::Ask => ask(walk),
        Kind::Tell => walk,
    }
}

// What a segment came to, and a datagram: the walk, and up to where it was read, or why it was refused.
#[derive(Clone, Copy)]
pub struct Walked {
    pub walk: Walk,
    pub answer: Result<usize, Refusal>,
}

// The segment at byte `at` of the datagram: the verdict, then what it does. A place and no slice of the rest, since the rules speak of the place.
fn segment(
    walk: Walk,
    rcv_records: &mut [u32],
    rcv_room: &mut [u8],
    acks: &mut [u32],
    snd_records: &mut [u32],
    datagram: &[u8],
    at: usize,
) -> Walked
    requires good { Good walk.block.receiver (lists rcv_records.old rcv_room.old) }
    requires lies { Lies walk.block.sender snd_records.old }
    requires acks_len_bound { length acks.old ≤ 8192 }
    requires skipped_bound { walk.skipped ≤ 62 }
    requires at_in_bounds { at + 24 ≤ length datagram.now }
    requires datagram_len_bound { length datagram.now ≤ 1500 }
    ensures by_index { (room : List ℕ) → SegmentAs datagram.now at (record { block = walk.block; latest = walk.latest; skipped = walk.skipped; rcv = lists rcv_records.old rcv_room.old; acks = acks.old; snd = store_of 8 (lists snd_records.old room) })
        (record { block = result.walk.block; latest = result.walk.latest; skipped = result.walk.skipped; rcv = lists rcv_records.new rcv_room.new; acks = acks.new; snd = store_of 8 (lists snd_records.new room) }) result.answer }
    ensures good_2 { Good result.walk.block.receiver (lists rcv_records.new rcv_room.new) }
    ensures lies_2 { Lies result.walk.block.sender snd_records.new }
    ensures skipped_bound_2 { result.walk.skipped ≤ walk.skipped + 1 }
{
    let h = wire::read_header(datagram, at);
    let block = walk.block;
    let settings = block.settings;
    let verdict = judge(
        settings.conv,
        settings.input_conv,
        h,
        datagram.len() - at - 24,
    );
    let known = adopt(block, h.conv);
    let kind = match verdict {
        Ok(kind) => kind,
        Err(why) => {
            return Walked {
                walk: Walk {
                    block: known,
                    ..walk
                },
                answer: Err(why),
            };
        }
    };
    let from = at + 24;
    let next = from + h.len as usize;
    let begun = Walk {
        block: begin(known, snd_records, h),
        ..walk
    };
    Walked {
        walk: act(
            begun,
            rcv_records,
            rcv_room,
            acks,
            snd_records,
            kind,
            h,
            &datagram[from..next],
        ),
        answer: Ok(next),
    }
}

// The segments of a datagram, one after the other while 24 bytes or more remain, up to the first that is refused. A place
// and no iterator, since how long a segment is stands in its header.
fn walk_all(
    start: Walk,
    rcv_records: &mut [u32],
    rcv_room: &mut [u8],
    acks: &mut [u32],
    snd_records: &mut [u32],
    datagram: &[u8],
) -> Walked
    requires good { Good start.block.receiver (lists rcv_records.old rcv_room.old) }
    requires lies { Lies start.block.sender snd_records.old }
    requires acks_len_bound { length acks.old ≤ 8192 }
    requires skipped_value { start.skipped ≡ 0 }
    requires datagram_len_bound { length datagram.now ≤ 1500 }
    ensures by_index { (room : List ℕ) → WalkedAs datagram.now (record { block = start.block; latest = start.latest; skipped = start.skipped; rcv = lists rcv_records.old rcv_room.old; acks = acks.old; snd = store_of 8 (lists snd_records.old room) })
        (record { block = result.walk.block; latest = result.walk.latest; skipped = result.walk.skipped; rcv = lists rcv_records.new rcv_room.new; acks = acks.new; snd = store_of 8 (lists snd_records.new room) }) result.answer }
    ensures lies_2 { Lies result.walk.block.sender snd_records.new }
    ensures skipped_bound { result.walk.skipped ≤ 62 }
{
    let mut walk = start;
    let mut at = 0;
    while 24 <= datagram.len() - at {
        let met = segment(walk, rcv_records, rcv_room, acks, snd_records, datagram, at);
        let answer = met.answer;
        let Ok(count) = answer else {
            return met;
        };
        let left = met.walk;
        walk = left;
        at = count;
    }
    Walked {
        walk,
        answer: Ok(at),
    }
}

// The windows of the sending side, grown if snd_una moved forward and cwnd is under rmt_wnd.
fn grown_by(congestion: Congestion, mss: u32, before: u32, una: u32) -> Congestion
    requires { 0 < mss }
    ensures { result ≡ grown_by mss before una congestion }
{
    if !serial::after(una, before) {
        return congestion;
    }
    let window = Window {
        cwnd: congestion.cwnd,
        incr: congestion.incr,
    };
    let grown = window.grown(mss, congestion.ssthresh, congestion.rmt_wnd);
    Congestion {
        cwnd: grown.cwnd,
        incr: grown.incr,
        ..congestion
    }
}

// What input leaves: the block, the bytes consumed or why it was refused, and how many pushes were skipped.
#[derive(Clone, Copy)]
pub struct Outcome {
    pub block: Kcp,
    pub answer: Result<usize, Refusal>,
    pub skipped: u32,
}

// A datagram of at most 1,500 bytes: its segments, and where none was refused, what its acks do to the flight records, and the window's growth.
pub fn read(
    block: Kcp,
    rcv_records: &mut [u32],
    rcv_room: &mut [u8],
    acks: &mut [u32],
    snd_records: &mut [u32],
    datagram: &[u8],
) -> Outcome
    requires good { Good block.receiver (lists rcv_records.old rcv_room.old) }
    requires lies { Lies block.sender snd_records.old }
    requires acks_len_bound { length acks.old ≤ 8192 }
    requires datagram_len_bound { length datagram.now ≤ 1500 }
    requires mss_nonzero { 0 < block.settings.mss }
    ensures by_index { (room : List ℕ) → record { block = result.block; answer = result.answer; skipped = result.skipped; rcv = lists rcv_records.new rcv_room.new; acks = acks.new; snd = store_of 8 (lists snd_records.new room) }
        ≡ read_at block (lists rcv_records.old rcv_room.old) acks.old (store_of 8 (lists snd_records.old room)) datagram.now }
    ensures skipped_bound { result.skipped ≤ 62 }
{
    let settings = block.settings;
    let before = block.sender;
    let met = walk_all(
        Walk {
            block,
            latest: None,
            skipped: 0,
        },
        rcv_records,
        rcv_room,
        acks,
        snd_records,
        datagram,
    );
    let walk = met.walk;
    let known = walk.block;
    let answer = met.answer;
    let Ok(count) = answer else {
        return Outcome {
            block: known,
            answer,
            skipped: walk.skipped,
        };
    };
    let sender = known.sender;
    transmit::parse_fastack(sender, snd_records, walk.latest);
    let congestion = grown_by(
        known.congestion,
        settings.mss,
        before.snd_una,
        sender.snd_una,
    );
    Outcome {
        block: Kcp {
            congestion,
            ..known
        },
        answer: Ok(count),
        skipped: walk.skipped,
    }
}

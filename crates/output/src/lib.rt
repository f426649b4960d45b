// The way out in lent memory: flush_ack, flush and update, which are one turn, and check. Each requires that the memory is well formed; the public calls test that and then act. The lists
// are handed one by one, as kcp_flush has them.
#![tactic(auto)]

ghost use Rattle.std.specs.Prelude.{◌≡◌, false, List, ℕ, ◌*◌, ◌≤◌, ◌<◌, ◌^◌, length};
ghost use Rattle.block.specs.WellFormed.{SettingsFit, ProbeFits, AckListFits, OwnNumbers};
ghost use Rattle.block.specs.declared.refusal.Refusal.TheVariants.{OutTooSmall};
ghost use Rattle.ring.specs.Lists.{lists};
ghost use Rattle.snd_ring.specs.Store.{store_of, Sound};
ghost use Rattle.packing.specs.Packer.{holding, sized, closed};
ghost use Rattle.packing.specs.FlushAck.{writing};
ghost use Rattle.due.specs.Pass.{Rung};
ghost use Rattle.output.specs.Memory.{told_of, plan_of, flush_ack_at, flush_at, turn_at, check_at, sizes_at, settled_by, rear_at, RearFits, uncounted, written_at, FlushFits};

use block::Kcp;
use block::acklist::AckList;
use block::probe::Probe;
use block::refusal::Refusal;
use block::sender::Sender;
use due::{Way, Written};
use flushing::clock::{Tick, tm_flush, wait_of};
use flushing::due::{Pace, Tally, pace_of};
use flushing::headers::Told;
use flushing::probing::probe_wnd_size;
use flushing::windows::{congestion_after, leaving, window_of, wnd_unused};
use packing::front::{front_put, front_sized};
use packing::packer::Packer;

// What every header of a flush tells: the conv, what is left of the receive window, and the next number awaited.
fn told(block: Kcp) -> Told
    ensures { result ≡ told_of block }
{
    let settings = block.settings;
    let receiver = block.receiver;
    let ring = receiver.ring;
    Told {
        conv: settings.conv,
        wnd: wnd_unused(receiver.rcv_wnd, ring.queued),
        una: receiver.rcv_nxt,
    }
}

// What a flush goes by, from the block's numbers alone: what its headers tell, what decides whether a segment goes out, the probe, the window of this
// flush, and how many segments leave the queue.
#[derive(Clone, Copy)]
pub struct Plan {
    pub told: Told,
    pub pace: Pace,
    pub probe: Probe,
    pub window: u16,
    pub leavers: u32,
}

fn planned(block: Kcp) -> Plan
    requires { ProbeFits block.probe }
    ensures { result ≡ plan_of block }
{
    let settings = block.settings;
    let congestion = block.congestion;
    let clock = block.clock;
    let estimator = block.estimator;
    let sender = block.sender;
    let ring = sender.ring;
    let window = window_of(congestion, settings.nocwnd);
    Plan {
        told: told(block),
        pace: pace_of(settings, clock.current, estimator.rto),
        probe: probe_wnd_size(block.probe, congestion.rmt_wnd, clock.current),
        window,
        leavers: leaving(sender.snd_una, window, sender.snd_nxt, ring.unsent),
    }
}

// What a call leaves beside the lent memory: the block, the answer, and how many datagrams went out; that count stands beside the answer and not in it,
// since `Ruled` (kcp_flush/specs/Ruled) tells it of a refused call too.
#[derive(Clone, Copy)]
pub struct Out {
    pub block: Kcp,
    pub answer: Result<(), Refusal>,
    pub datagrams: usize,
}

// A call refused by 13: all as it was.
fn too_small(block: Kcp) -> Out
    ensures { result ≡ record { block = block; answer = Err OutTooSmall; datagrams = 0 } }
{
    Out {
        block,
        answer: Err(Refusal::OutTooSmall),
        datagrams: 0,
    }
}

// Puts the acks out behind the bytes that wait; what does not fill a datagram stays waiting. Refused by 13, which leaves all.
pub fn flush_ack(
    block: Kcp,
    acks: &[u32],
    waiting: &mut [u8],
    out: &mut [u8],
    lengths: &mut [u16],
) -> Out
    requires settings_fit { SettingsFit block.settings }
    requires ack_list_fits { AckListFits block.acklist }
    requires acks_in_bounds { 2 * block.acklist.acks ≤ length acks.now }
    requires waiting_len { length waiting.old ≡ 1500 }
    ensures { record { block = result.block; answer = result.answer; datagrams = result.datagrams; written = writing waiting.new out.new lengths.new }
        ≡ flush_ack_at block acks.now (writing waiting.old out.old lengths.old) }
{
    let settings = block.settings;
    let acklist = block.acklist;
    let packed = packing::flush_ack::flush_ack(
        told(block),
        settings.mtu as usize,
        acks,
        acklist.acks as usize,
        waiting,
        acklist.waiting as usize,
        out,
        lengths,
    );
    let Ok(sent) = packed else {
        return too_small(block);
    };
    let rest = AckList {
        acks: 0,
        waiting: sent.waiting as u32,
    };
    Out {
        block: Kcp {
            acklist: rest,
            ..block
        },
        answer: Ok(()),
        datagrams: sent.datagrams,
    }
}

// What a flush comes to, by sizes alone: the bytes and the datagrams that go out. Nothing changes.
fn flush_sizes(block: Kcp, plan: Plan, records: &[u32]) -> Packer
    requires plan_value { plan ≡ plan_of block }
    requires settings_fit { SettingsFit block.settings }
    requires ack_list_fits { AckListFits block.acklist }
    requires rung { Rung block.sender.ring records.now }
    ensures by_index { (room : List ℕ) → result ≡ closed (sized block.settings.mtu (holding block.acklist.waiting) (sizes_at block (store_of 8 (lists records.now room)))) }
    ensures start_bound { result.start < 2 ^ 32 }
{
    let settings = block.settings;
    let acklist = block.acklist;
    let sender = block.sender;
    let ring = sender.ring;
    let probe = plan.probe;
    let mtu = settings.mtu as usize;
    let front = front_sized(
        acklist.waiting as usize,
        mtu,
        acklist.acks as usize,
        probe.bits,
    );
    if ring.reach == 0 && plan.leavers == 0 {
        return front.close();
    }
    let flying = due::due_sizes(ring, records, plan.pace, mtu, front);
    let all = due::fresh_sizes(ring, records, plan.leavers, mtu, flying);
    all.close()
}

// The block after a flush: the windows by what was counted, the probe with its bits used up, no ack and no byte that waits, and the sending side.
fn settled(block: Kcp, plan: Plan, sender: Sender, tally: Tally) -> Kcp
    requires { plan ≡ plan_of block }
    ensures { result ≡ settled_by block sender tally }
{
    let settings = block.settings;
    let pace = plan.pace;
    let inflight = sender.snd_nxt.wrapping_sub(sender.snd_una);
    let congestion = congestion_after(
        block.congestion,
        settings.mss,
        inflight,
        pace.resent,
        plan.window,
        tally.change,
        tally.lost,
    );
    Kcp {
        congestion,
        probe: Probe {
            bits: 0,
            ..plan.probe
        },
        acklist: AckList {
            acks: 0,
            waiting: 0,
        },
        sender: Sender {
            xmit: tally.xmit,
            dead: tally.dead,
            ..sender
        },
        ..block
    }
}

// What is counted before any segment of a flush.
fn uncounted(sender: Sender) -> Tally
    ensures { result ≡ record { xmit = sender.xmit; dead = sender.dead; lost = false; change = false } }
{
    Tally {
        xmit: sender.xmit,
        dead: sender.dead,
        lost: false,
        change: false,
    }
}

// What the segments of a flush leave beside the lent memory: the sending side once they have left the queue, and what was counted.
#[derive(Clone, Copy)]
pub struct Flown {
    pub sender: Sender,
    pub tally: Tally,
}

// Segments leave the queue, those in flight that go out are written behind the front of the flush, and what waits then goes out.
fn rear_put(
    block: Kcp,
    plan: Plan,
    records: &mut [u32],
    room: &[u8],
    out: &mut [u8],
    lengths: &mut [u16],
    front: Packer,
) -> Flown
    requires plan_value { plan ≡ plan_of block }
    requires mtu_bound { block.settings.mtu ≤ 1500 }
    requires sound { Sound 8 block.sender.ring (store_of 8 (lists records.old room.now)) }
    requires rear_fits { RearFits block (store_of 8 (lists records.old room.now)) out.old lengths.old front }
    ensures { record { sender = result.sender; tally = result.tally; store = store_of 8 (lists records.new room.now); out = out.new; lengths = lengths.new }
        ≡ rear_at block (store_of 8 (lists records.old room.now)) out.old lengths.old front }
{
    let settings = block.settings;
    let clock = block.clock;
    let estimator = block.estimator;
    let before = block.sender;
    let sender = flight::launch(
        before,
        records,
        plan.leavers,
        settings.conv,
        clock.current,
        estimator.rto,
    );
    let written = due::due_write(
        sender.ring,
        records,
        room,
        Way {
            told: plan.told,
            pace: plan.pace,
            dead_link: settings.dead_link,
            mtu: settings.mtu as usize,
        },
        out,
        lengths,
        Written {
            packer: front,
            tally: uncounted(before),
        },
    );
    let packer = written.packer;
    let tally = written.tally;
    packer.finish(lengths);
    Flown { sender, tally }
}

// Writes a flush: the bytes that wait, the acks and the probes, and then the segments.
fn flush_write(
    block: Kcp,
    plan: Plan,
    records: &mut [u32],
    room: &[u8],
    acks: &[u32],
    waiting: &[u8],
    out: &mut [u8],
    lengths: &mut [u16],
) -> Flown
    requires plan_value { plan ≡ plan_of block }
    requires settings_fit { SettingsFit block.settings }
    requires ack_list_fits { AckListFits block.acklist }
    requires acks_in_bounds { 2 * block.acklist.acks ≤ length acks.now }
    requires waiting_len { length waiting.now ≡ 1500 }
    requires sound { Sound 8 block.sender.ring (store_of 8 (lists records.old room.now)) }
    requires flush_fits { FlushFits block (store_of 8 (lists records.old room.now)) acks.now out.old lengths.old }
    ensures { record { sender = result.sender; tally = result.tally; store = store_of 8 (lists records.new room.now); out = out.new; lengths = lengths.new }
        ≡ written_at block (store_of 8 (lists records.old room.now)) acks.now waiting.now out.old lengths.old }
{
    let settings = block.settings;
    let acklist = block.acklist;
    let probe = plan.probe;
    let front = front_put(
        plan.told,
        probe.bits,
        settings.mtu as usize,
        acks,
        acklist.acks as usize,
        waiting,
        acklist.waiting as usize,
        out,
        lengths,
    );
    rear_put(block, plan, records, room, out, lengths, front)
}

// A flush of which nothing goes out: nothing leaves the queue, and no memory changes.
fn idle(block: Kcp, plan: Plan) -> Out
    requires { plan ≡ plan_of block }
    ensures { result ≡ record { block = settled_by block block.sender (uncounted block); answer = Ok tt; datagrams = 0 } }
{
    let sender = block.sender;
    let none = uncounted(sender);
    Out {
        block: settled(block, plan, sender, none),
        answer: Ok(()),
        datagrams: 0,
    }
}

// Puts out what waits, the acks, the probes and the segments that are fresh or to be resent, of the block as it is now. Refused by 13, which leaves the
// block of before and all memory.
fn flush(
    before: Kcp,
    block: Kcp,
    records: &mut [u32],
    room: &[u8],
    acks: &[u32],
    waiting: &[u8],
    out: &mut [u8],
    lengths: &mut [u16],
) -> Out
    requires own_numbers { OwnNumbers block }
    requires acks_in_bounds { 2 * block.acklist.acks ≤ length acks.now }
    requires waiting_len { length waiting.now ≡ 1500 }
    requires sound { Sound 8 block.sender.ring (store_of 8 (lists records.old room.now)) }
    ensures { record {
      out = record { block = result.block; answer = result.answer; datagrams = result.datagrams; written = writing waiting.now out.new lengths.new };
      store = store_of 8 (lists records.new room.now);
    }
        ≡ flush_at before block (store_of 8 (lists records.old room.now)) acks.now (writing waiting.now out.old lengths.old) }
{
    let plan = planned(block);
    let sizes = flush_sizes(block, plan, records);
    if out.len() < sizes.start || lengths.len() < sizes.count {
        return too_small(before);
    }
    if sizes.start == 0 {
        return idle(block, plan);
    }
    let flown = flush_write(block, plan, records, room, acks, waiting, out, lengths);
    Out {
        block: settled(block, plan, flown.sender, flown.tally),
        answer: Ok(()),
        datagrams: sizes.count,
    }
}

// Takes the clock of the tick, and flushes where it says so. Refused by 13, which leaves all, the clock too.
pub fn turn(
    block: Kcp,
    tick: Tick,
    records: &mut [u32],
    room: &[u8],
    acks: &[u32],
    waiting: &[u8],
    out: &mut [u8],
    lengths: &mut [u16],
) -> Out
    requires own_numbers { OwnNumbers block }
    requires acks_in_bounds { 2 * block.acklist.acks ≤ length acks.now }
    requires waiting_len { length waiting.now ≡ 1500 }
    requires sound { Sound 8 block.sender.ring (store_of 8 (lists records.old room.now)) }
    ensures { record {
      out = record { block = result.block; answer = result.answer; datagrams = result.datagrams; written = writing waiting.now out.new lengths.new };
      store = store_of 8 (lists records.new room.now);
    }
        ≡ turn_at tick block (store_of 8 (lists records.old room.now)) acks.now (writing waiting.now out.old lengths.old) }
{
    let now = Kcp {
        clock: tick.clock,
        ..block
    };
    if !tick.flushes {
        return Out {
            block: now,
            answer: Ok(()),
            datagrams: 0,
        };
    }
    flush(block, now, records, room, acks, waiting, out, lengths)
}

// How long until the next update, in milliseconds: until the next flush or the next resend, and at most an interval; 0 before the first update. The
// segments are looked at only where they can shorten it.
pub fn check(block: Kcp, current: u32, records: &[u32], room: &[u8]) -> u32
    requires { Sound 8 block.sender.ring (store_of 8 (lists records.now room.now)) }
    ensures { result ≡ check_at current block (store_of 8 (lists records.now room.now)) }
{
    let clock = block.clock;
    let sender = block.sender;
    let most = wait_of(clock.interval, u32::MAX, tm_flush(clock, current));
    if most == 0 {
        return 0;
    }
    flight::tm_packet(sender.ring, records, current, most)
}

// The windows of a flush: the wnd of every header, how many segments leave the queue, and the window of congestion afterwards.
ghost use Rattle.std.specs.Prelude.{◌≡◌};
ghost use Rattle.serial.specs.Wrap.{add32};
ghost use Rattle.flushing.specs.Windows.{wnd_unused, window_of, leaving, resent_of, halved, resent_fast, timed_out, at_least_one, congestion_after};

use block::Kcp;
use block::congestion::Congestion;

// What is left of the receive window beside the queue: 0 where the queue is at or over it.
pub fn wnd_unused(rcv_wnd: u16, queued: u32) -> u16
    ensures { result ≡ wnd_unused rcv_wnd queued }
{
    (rcv_wnd as u32).saturating_sub(queued) as u16
}

// The window of a flush: the own and the peer's, and that of congestion unless it is switched off.
#[tactic(auto, unfolding(crate::specs::Windows::window_of, serial::specs::Branch::pick))]
pub fn window_of(congestion: Congestion, nocwnd: bool) -> u16
    ensures { result ≡ window_of nocwnd congestion }
{
    let window = congestion.snd_wnd.min(congestion.rmt_wnd);
    if nocwnd {
        return window;
    }
    congestion.cwnd.min(window)
}

// How many of the waiting segments leave the queue, the first of them numbered snd_nxt: those numbered before snd_una and the window.
pub fn leaving(snd_una: u32, window: u16, snd_nxt: u32, waiting: u32) -> u32
    ensures { result ≡ leaving (add32 snd_una window) snd_nxt waiting }
{
    let between = snd_una.wrapping_add(window as u32).wrapping_sub(snd_nxt);
    if between <= 0x8000_0000 {
        return between.min(waiting);
    }
    0
}

// How many acks of later segments have a segment resent fast; where it is switched off, the largest number.
#[tactic(auto, unfolding(crate::specs::Windows::resent_of, serial::specs::Branch::pick))]
pub fn resent_of(fastresend: u32) -> u32
    ensures { result ≡ resent_of fastresend }
{
    if 0 < fastresend { fastresend } else { u32::MAX }
}

// Half of a window, but no less than the least threshold.
fn halved(window: u16) -> u16
    ensures { result ≡ halved window }
{
    (window / 2).max(Kcp::THRESH_MIN)
}

// After a fast resend: half of what is in flight, and as many more as acks had it resent, both cast to 16 bits.
#[tactic(auto, unfolding(crate::specs::Windows::resent_fast))]
fn resent_fast(congestion: Congestion, mss: u32, inflight: u32, resent: u32) -> Congestion
    ensures { result ≡ resent_fast mss inflight resent congestion }
{
    let ssthresh = halved((inflight % 0x1_0000) as u16);
    let cwnd = ssthresh.wrapping_add((resent % 0x1_0000) as u16);
    Congestion {
        cwnd,
        ssthresh,
        incr: serial::mul64(cwnd as u64, mss as u64),
        ..congestion
    }
}

// After a timeout: a threshold of half the window of this flush, and a window of one.
#[tactic(auto, unfolding(crate::specs::Windows::timed_out))]
fn timed_out(congestion: Congestion, mss: u32, window: u16) -> Congestion
    ensures { result ≡ timed_out mss window congestion }
{
    Congestion {
        cwnd: 1,
        ssthresh: halved(window),
        incr: mss as u64,
        ..congestion
    }
}

// A window of no segments becomes one of one.
#[tactic(auto, unfolding(crate::specs::Windows::at_least_one, serial::specs::Branch::pick))]
fn at_least_one(congestion: Congestion, mss: u32) -> Congestion
    ensures { result ≡ at_least_one mss congestion }
{
    if congestion.cwnd < 1 {
        return Congestion {
            cwnd: 1,
            incr: mss as u64,
            ..congestion
        };
    }
    congestion
}

// The windows after a flush, by whether a segment was resent fast, and whether one timed out, which comes after it.
#[tactic(auto, unfolding(crate::specs::Windows::congestion_after, serial::specs::Branch::pick))]
pub fn congestion_after(
    congestion: Congestion,
    mss: u32,
    inflight: u32,
    resent: u32,
    window: u16,
    change: bool,
    lost: bool,
) -> Congestion
    ensures { result ≡ congestion_after mss inflight resent window change lost congestion }
{
    let changed = if change {
        resent_fast(congestion, mss, inflight, resent)
    } else {
        congestion
    };
    let left = if lost {
        timed_out(changed, mss, window)
    } else {
        changed
    };
    at_least_one(left, mss)
}

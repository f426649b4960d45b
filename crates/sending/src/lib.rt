// The sending side's rules (specs/), and what they do with numbers: the range in flight, the latest ack, a fastack, the window's growth.
#![tactic(auto)]

ghost use Rattle.std.specs.Prelude.{◌≡◌, ◌<◌};
ghost use Rattle.sending.specs.Rules.{in_range, stops, fastack_of, later, past_threshold, rounded_up, opened, cut_to, grown};
ghost use Rattle.sending.specs.Flights.{raised_flight, raised_flights};

pub mod column; // what a row of the send ring has where

// An ack of a datagram: the number that it names, and its ts. Those of the latest one are max_ack and latest_ts.
#[derive(Clone, Copy)]
pub struct Ack {
    pub sn: u32,
    pub ts: u32,
}

// The window of congestion, and its bytes.
#[derive(Clone, Copy)]
pub struct Window {
    pub cwnd: u16,
    pub incr: u64,
}

// The flight record of a segment, as far as fastack goes.
#[derive(Clone, Copy)]
pub struct Flight {
    pub number: u32,
    pub ts: u32,
    pub fastack: u32,
}

// Whether a number is from una on and before the next one.
#[tactic(auto, unfolding(crate::specs::Rules::in_range))]
pub fn in_range(una: u32, next: u32, sn: u32) -> bool
    ensures { result ≡ in_range una next sn }
{
    serial::not_before(sn, una) && !serial::not_before(sn, next)
}

// Whether the search for sn stops at the number n: greater as a plain unsigned number.
pub fn stops(sn: u32, n: u32) -> bool
    ensures { result ≡ stops sn n }
{
    sn < n
}

// The fastack of a flight record after the acks of a datagram: one more if it is numbered before max_ack, with ts not later than latest_ts.
#[tactic(auto, unfolding(crate::specs::Rules::fastack_of, crate::specs::Rules::gains, serial::specs::Branch::pick))]
pub fn fastack_of(flight: Flight, latest: Ack) -> u32
    ensures { result ≡ fastack_of latest.sn latest.ts flight.number flight.ts flight.fastack }
{
    if serial::after(latest.sn, flight.number) && serial::not_before(latest.ts, flight.ts) {
        return flight.fastack.wrapping_add(1);
    }
    flight.fastack
}

// A flight record after the acks of a datagram.
pub fn raised(flight: Flight, latest: Ack) -> Flight
    ensures { result ≡ raised_flight latest.sn latest.ts flight }
{
    Flight {
        fastack: fastack_of(flight, latest),
        ..flight
    }
}

// The flight records lent, each so, in one walk.
pub fn raise(flights: &mut [Flight], latest: Ack)
    ensures { flights.new ≡ raised_flights latest.sn latest.ts flights.old }
{
    for f in flights.iter_mut() {
        *f = raised(*f, latest);
    }
}

impl Ack {
    // The latest ack with this one more: the first one of a datagram, and then each that is later in both.
    #[tactic(auto, unfolding(crate::specs::Rules::later, serial::specs::Branch::pick))]
    pub fn behind(self, latest: Option<Ack>) -> Ack
        ensures { result ≡ later latest self }
    {
        match latest {
            Some(l) if !(serial::after(self.sn, l.sn) && serial::after(self.ts, l.ts)) => l,
            _ => self,
        }
    }
}

// The window's bytes after one step past the threshold.
#[tactic(auto, unfolding(crate::specs::Rules::past_threshold))]
fn past_threshold(mss: u32, incr: u64) -> u64
    requires { 0 < mss }
    ensures { result ≡ past_threshold mss incr }
{
    let size = mss as u64;
    let base = incr.max(size);
    let share = serial::mul64(size, size) / base;
    base.wrapping_add(share.wrapping_add(size / 16))
}

// The window that so many bytes make, where they make one more than it is; its cast to u16 is kept.
#[tactic(auto, unfolding(crate::specs::Rules::rounded_up, serial::specs::Branch::pick))]
fn rounded_up(mss: u32, incr: u64, cwnd: u16) -> u16
    requires { 0 < mss }
    ensures { result ≡ rounded_up mss incr cwnd }
{
    let size = mss as u64;
    if serial::mul64(cwnd as u64 + 1, size) <= incr {
        return (incr.wrapping_add(size - 1) / size % 0x1_0000) as u16;
    }
    cwnd
}

impl Window {
    // One step of growth, under the threshold or past it.
    #[tactic(auto, unfolding(crate::specs::Rules::opened, serial::specs::Branch::pick))]
    fn opened(self, mss: u32, ssthresh: u16) -> Window
        requires { 0 < mss }
        ensures { result ≡ opened mss ssthresh self }
    {
        if self.cwnd < ssthresh {
            return Window {
                cwnd: self.cwnd.wrapping_add(1),
                incr: self.incr.wrapping_add(mss as u64),
            };
        }
        let incr = past_threshold(mss, self.incr);
        Window {
            cwnd: rounded_up(mss, incr, self.cwnd),
            incr,
        }
    }

    // Cut to the peer's window.
    #[tactic(auto, unfolding(crate::specs::Rules::cut_to, serial::specs::Branch::pick))]
    fn cut_to(self, mss: u32, rmt_wnd: u16) -> Window
        ensures { result ≡ cut_to mss rmt_wnd self }
    {
        if rmt_wnd < self.cwnd {
            return Window {
                cwnd: rmt_wnd,
                incr: serial::mul64(rmt_wnd as u64, mss as u64),
            };
        }
        self
    }

    // The growth of an input that moved snd_una forward: one step, where the window is under the peer's.
    #[tactic(auto, unfolding(crate::specs::Rules::grown, serial::specs::Branch::pick))]
    pub fn grown(self, mss: u32, ssthresh: u16, rmt_wnd: u16) -> Window
        requires { 0 < mss }
        ensures { result ≡ grown mss ssthresh rmt_wnd self }
    {
        if self.cwnd < rmt_wnd {
            return self.opened(mss, ssthresh).cut_to(mss, rmt_wnd);
        }
        self
    }
}

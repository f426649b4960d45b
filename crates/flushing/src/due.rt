// One segment of the send buffer in a flush: whether and how it goes out, what its record becomes, and what is counted of it.
ghost use Rattle.std.specs.Prelude.{◌≡◌};
ghost use Rattle.flushing.specs.Due.{numbered, rtomin_of, pace_of, resends_fast, due_of, longer_rto, again, sent_as, flown_by, goes_out, dies, with_sent};

use crate::windows::resent_of;
use block::settings::Settings;

// What is kept of a segment beside its payload, from its first flight on.
#[derive(Clone, Copy)]
pub struct Record {
    pub conv: u32,
    pub frg: u32,
    pub sn: u32,
    pub ts: u32,
    pub resendts: u32,
    pub rto: u32,
    pub fastack: u32,
    pub xmit: u32,
}

// The numbers of the block that decide whether a segment goes out.
#[derive(Clone, Copy)]
pub struct Pace {
    pub current: u32,
    pub rx_rto: u32,
    pub rtomin: u32,
    pub resent: u32,
    pub nodelay: bool,
    pub fastlimit: u32,
}

// Whether and how a segment goes out: not at all, for the first time, because its time is up, or because later ones were acknowledged.
#[derive(Clone, Copy)]
pub enum Due {
    Idle,
    Fresh,
    TimedOut,
    Fast,
}

// Whether and how it goes out, and its record afterwards.
#[derive(Clone, Copy)]
pub struct Flown {
    pub due: Due,
    pub after: Record,
}

// What a flush counts: the timeouts ever, whether the link is dead, and whether something timed out or was resent fast.
#[derive(Clone, Copy)]
pub struct Tally {
    pub xmit: u32,
    pub dead: bool,
    pub lost: bool,
    pub change: bool,
}

// How much longer than its timeout a fresh segment waits: an eighth, or nothing without delay.
#[tactic(auto, unfolding(crate::specs::Due::rtomin_of, serial::specs::Branch::pick))]
fn rtomin_of(nodelay: bool, rx_rto: u32) -> u32
    ensures { result ≡ rtomin_of nodelay rx_rto }
{
    if nodelay { 0 } else { rx_rto / 8 }
}

// Those numbers of a block with these settings, at this time and with this timeout.
#[tactic(auto, unfolding(crate::specs::Due::pace_of))]
pub fn pace_of(settings: Settings, current: u32, rx_rto: u32) -> Pace
    ensures { result ≡ pace_of settings current rx_rto }
{
    Pace {
        current,
        rx_rto,
        rtomin: rtomin_of(settings.nodelay, rx_rto),
        resent: resent_of(settings.fastresend),
        nodelay: settings.nodelay,
        fastlimit: settings.fastlimit,
    }
}

// The timeout of a segment after one: doubled at least, or half as much again without delay. It is never cut.
#[tactic(auto, unfolding(crate::specs::Due::longer_rto, serial::specs::Branch::pick))]
fn longer_rto(pace: Pace, rto: u32) -> u32
    ensures { result ≡ longer_rto pace rto }
{
    if pace.nodelay {
        return rto.wrapping_add(rto / 2);
    }
    rto.wrapping_add(rto.max(pace.rx_rto))
}

impl Record {
    // The record of a segment that leaves the queue; its frg stays.
    pub fn numbered(self, conv: u32, sn: u32, current: u32, rx_rto: u32) -> Record
        ensures { result ≡ numbered conv sn current rx_rto self }
    {
        Record {
            conv,
            sn,
            ts: current,
            resendts: current,
            rto: rx_rto,
            fastack: 0,
            xmit: 0,
            ..self
        }
    }

    // Whether enough later segments were acknowledged, and it was not yet sent too often.
    #[tactic(auto, unfolding(crate::specs::Due::resends_fast))]
    fn resends_fast(self, pace: Pace) -> bool
        ensures { result ≡ resends_fast pace self }
    {
        pace.resent <= self.fastack && (self.xmit <= pace.fastlimit || pace.fastlimit == 0)
    }

    // Whether and how it goes out: fresh, else by its time, else fast.
    #[tactic(auto, unfolding(crate::specs::Due::due_of, serial::specs::Branch::pick))]
    fn due_by(self, pace: Pace) -> Due
        ensures { result ≡ due_of pace self }
    {
        if self.xmit == 0 {
            return Due::Fresh;
        }
        if serial::not_before(pace.current, self.resendts) {
            return Due::TimedOut;
        }
        if self.resends_fast(pace) {
            return Due::Fast;
        }
        Due::Idle
    }

    // One transmission more, now.
    fn again(self, current: u32, resendts: u32, rto: u32, fastack: u32) -> Record
        ensures { result ≡ again current self resendts rto fastack }
    {
        Record {
            ts: current,
            resendts,
            rto,
            fastack,
            xmit: self.xmit.wrapping_add(1),
            ..self
        }
    }

    // Its record afterwards, by how it goes out.
    #[tactic(auto, unfolding(crate::specs::Due::sent_as))]
    fn sent_as(self, pace: Pace, due: Due) -> Record
        ensures { result ≡ sent_as pace due self }
    {
        let now = pace.current;
        match due {
            Due::Idle => self,
            Due::Fresh => self.again(
                now,
                now.wrapping_add(pace.rx_rto).wrapping_add(pace.rtomin),
                pace.rx_rto,
                self.fastack,
            ),
            Due::TimedOut => {
                let rto = longer_rto(pace, self.rto);
                self.again(now, now.wrapping_add(rto), rto, self.fastack)
            }
            Due::Fast => self.again(now, now.wrapping_add(self.rto), self.rto, 0),
        }
    }

    // Whether and how it goes out, and its record afterwards.
    #[tactic(auto, unfolding(crate::specs::Due::flown_by))]
    pub fn flown_by(self, pace: Pace) -> Flown
        ensures { result ≡ flown_by pace self }
    {
        let due = self.due_by(pace);
        Flown {
            due,
            after: self.sent_as(pace, due),
        }
    }
}

impl Due {
    // Whether it goes out.
    pub fn goes_out(self) -> bool
        ensures { result ≡ goes_out self }
    {
        !matches!(self, Due::Idle)
    }
}

// Whether the link is dead, or a segment that was sent so often makes it so.
#[tactic(auto, unfolding(crate::specs::Due::dies))]
fn dies(dead: bool, dead_link: u32, xmit: u32) -> bool
    ensures { result ≡ dies dead dead_link xmit }
{
    dead || dead_link <= xmit
}

impl Tally {
    // With one segment more, by how it goes out and how often it then was sent. A timeout is counted, a fast resend is not.
    #[tactic(auto, unfolding(crate::specs::Due::with_sent))]
    pub fn with_sent(self, dead_link: u32, due: Due, xmit: u32) -> Tally
        ensures { result ≡ with_sent dead_link due xmit self }
    {
        let dead = dies(self.dead, dead_link, xmit);
        match due {
            Due::Idle => self,
            Due::Fresh => Tally { dead, ..self },
            Due::TimedOut => Tally {
                xmit: self.xmit.wrapping_add(1),
                dead,
                lost: true,
                ..self
            },
            Due::Fast => Tally {
                dead,
                change: true,
                ..self
            },
        }
    }
}

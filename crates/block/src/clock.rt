// The clock: the stored time, the flush interval, when the next flush is due, and whether there was an update.
ghost use Rattle.std.specs.Prelude.{◌≡◌};
ghost use Rattle.block.specs.Fresh.{fresh_clock};
ghost use Rattle.block.specs.Parts.{with_interval};
ghost use Rattle.block.specs.Setters.{interval_of, interval_of_signed};

use crate::Kcp;

#[derive(Clone, Copy, Debug, PartialEq, Eq)]
pub struct Clock {
    pub current: u32,
    pub interval: u32,
    pub ts_flush: u32,
    pub updated: bool,
}

// An interval as it is set: from 10 to 5,000.
#[tactic(auto, unfolding(crate::specs::Setters::interval_of, serial::specs::Branch::pick))]
pub fn interval_of(interval: u32) -> u32
    ensures { result ≡ interval_of interval }
{
    interval.clamp(Kcp::INTERVAL_LEAST, Kcp::INTERVAL_MOST)
}

// The same of a signed number.
#[tactic(auto, unfolding(crate::specs::Setters::interval_of_signed, serial::specs::Branch::pick))]
pub fn interval_of_signed(interval: i32) -> u32
    ensures { result ≡ interval_of_signed interval }
{
    interval.clamp(Kcp::INTERVAL_LEAST as i32, Kcp::INTERVAL_MOST as i32) as u32
}

impl Clock {
    // The clock of a fresh block that flushes at this interval.
    pub fn new(interval: u32) -> Clock
        ensures { result ≡ fresh_clock interval }
    {
        Clock {
            current: 0,
            interval,
            ts_flush: interval,
            updated: false,
        }
    }

    // The clock with this interval; the next flush stays.
    pub fn with_interval(self, interval: u32) -> Clock
        ensures { result ≡ with_interval self interval }
    {
        Clock { interval, ..self }
    }
}

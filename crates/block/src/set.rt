// The setters that are handed no pool.
ghost use Rattle.std.specs.Prelude.{◌≡◌};
ghost use Rattle.block.specs.Setters.{MtuSet, set_interval, set_nodelay, set_rx_minrto, set_fast_resend, set_maximum_resend_times, input_conv, set_conv, minrto_of};

use crate::Kcp;
use crate::clock::{interval_of, interval_of_signed};
use crate::refusal::Refusal;
use crate::settings::Settings;
use crate::sizes::within;
use estimator::Estimator;

// The block after a setter, and whether it was refused.
#[derive(Clone, Copy, Debug, PartialEq, Eq)]
pub struct Set {
    pub block: Kcp,
    pub answer: Result<(), Refusal>,
}

// The least timeout with nodelay, and without.
#[tactic(auto, unfolding(crate::specs::Setters::minrto_of, serial::specs::Branch::pick))]
fn minrto_of(nodelay: bool) -> u32
    ensures { result ≡ minrto_of nodelay }
{
    if nodelay { Kcp::RTO_NDL } else { Kcp::RTO_MIN }
}

impl Kcp {
    // Sets the mtu, and mss with it; refused by 10 under 50 or over 1,500, which leaves all.
    #[tactic(auto, unfolding(crate::specs::Setters::set_mtu, serial::specs::Branch::pick))]
    pub fn set_mtu(self, mtu: usize) -> Set
        ensures { MtuSet self mtu result }
    {
        if !within(Kcp::MTU_LEAST, mtu, Kcp::MTU_MOST) {
            return Set {
                block: self,
                answer: Err(Refusal::InvalidMtu { mtu }),
            };
        }
        let m = mtu as u32;
        let settings = self.settings.with_mtu(m, m - Kcp::OVERHEAD);
        Set {
            block: Kcp { settings, ..self },
            answer: Ok(()),
        }
    }

    // Sets the interval, raised to 10 and cut to 5,000; the next flush stays.
    pub fn set_interval(self, interval: u32) -> Kcp
        ensures { result ≡ set_interval self interval }
    {
        let clock = self.clock.with_interval(interval_of(interval));
        Kcp { clock, ..self }
    }

    // Sets nodelay, with the least timeout of 30 or 100, the interval, fastresend unless it is negative, and nocwnd. The timeout stays.
    pub fn set_nodelay(self, nodelay: bool, interval: i32, resend: i32, nc: bool) -> Kcp
        ensures { result ≡ set_nodelay self nodelay interval resend nc }
    {
        Kcp {
            settings: self.settings.with_nodelay(nodelay, resend, nc),
            clock: self.clock.with_interval(interval_of_signed(interval)),
            ..self.set_rx_minrto(minrto_of(nodelay))
        }
    }

    // Sets the least timeout; the timeout stays.
    pub fn set_rx_minrto(self, rto: u32) -> Kcp
        ensures { result ≡ set_rx_minrto self rto }
    {
        let estimator = Estimator {
            minrto: rto,
            ..self.estimator
        };
        Kcp { estimator, ..self }
    }

    // Sets how many acks of later segments have a segment resent; 0 for never.
    pub fn set_fast_resend(self, fr: u32) -> Kcp
        ensures { result ≡ set_fast_resend self fr }
    {
        let settings = Settings {
            fastresend: fr,
            ..self.settings
        };
        Kcp { settings, ..self }
    }

    // Sets after how many transmissions of one segment the link is dead.
    pub fn set_maximum_resend_times(self, dead_link: u32) -> Kcp
        ensures { result ≡ set_maximum_resend_times self dead_link }
    {
        let settings = Settings {
            dead_link,
            ..self.settings
        };
        Kcp { settings, ..self }
    }

    // Has the next input's conv adopted.
    pub fn input_conv(self) -> Kcp
        ensures { result ≡ input_conv self }
    {
        let settings = Settings {
            input_conv: true,
            ..self.settings
        };
        Kcp { settings, ..self }
    }

    // Sets the conversation; where one is awaited, it still is.
    pub fn set_conv(self, conv: u32) -> Kcp
        ensures { result ≡ set_conv self conv }
    {
        let settings = Settings {
            conv,
            ..self.settings
        };
        Kcp { settings, ..self }
    }
}

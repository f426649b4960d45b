// The estimator of the round trip: the smoothed time, the spread and the timeout.
#![tactic(auto)]

ghost use Rattle.std.specs.Prelude.{◌≡◌};
ghost use Rattle.estimator.specs.Estimate.{fresh, timed, measured, acked};

// The smoothed time (0: not measured yet), the spread, the timeout and the least timeout: rx_srtt, rx_rttval, rx_rto and rx_minrto.
// srtt is a number and no Option: 01 says "if srtt is 0", and a host keeps it as a word.
#[derive(Clone, Copy, Debug, PartialEq, Eq)]
pub struct Estimator {
    pub srtt: u32,
    pub rttval: u32,
    pub rto: u32,
    pub minrto: u32,
}

impl Estimator {
    // The timeout and the least timeout of a fresh block, and the longest.
    pub const RTO_DEF: u32 = 200;

    pub const RTO_MIN: u32 = 100;

    pub const RTO_MAX: u32 = 60_000;

    // The estimator of a fresh block.
    pub fn new() -> Estimator
        ensures { result ≡ fresh }
    {
        Estimator {
            srtt: 0,
            rttval: 0,
            rto: Estimator::RTO_DEF,
            minrto: Estimator::RTO_MIN,
        }
    }

    // The estimator with this smoothed time and this spread, and the timeout that follows, which wraps before it is bounded.
    #[tactic(auto, unfolding(crate::specs::Estimate::timed))]
    fn timed(self, interval: u32, srtt: u32, rttval: u32) -> Estimator
        ensures { result ≡ timed self interval srtt rttval }
    {
        let wait = srtt.wrapping_add(interval.max(serial::mul(4, rttval)));
        Estimator {
            srtt,
            rttval,
            rto: serial::bound(self.minrto, wait, Estimator::RTO_MAX),
            ..self
        }
    }

    // The estimator after one more round trip, of rtt; the least timeout stays.
    #[tactic(auto, unfolding(crate::specs::Estimate::measured, serial::specs::Branch::pick))]
    pub fn measured(self, rtt: u32, interval: u32) -> Estimator
        ensures { result ≡ measured self rtt interval }
    {
        let Estimator { srtt, rttval, .. } = self;
        if srtt == 0 {
            return self.timed(interval, rtt, rtt / 2);
        }
        let spread = serial::mul(3, rttval).wrapping_add(rtt.abs_diff(srtt)) / 4;
        let smooth = serial::mul(7, srtt).wrapping_add(rtt) / 8;
        self.timed(interval, smooth.max(1), spread)
    }

    // Keeps the estimator up to date, where it stands, after an ack of what was sent at ts: as it was where ts is later than current.
    #[tactic(auto, using(serial::proofs::Sign::not_before_is), unfolding(crate::specs::Estimate::acked, serial::specs::Branch::pick))]
    pub fn update_ack(&mut self, current: u32, ts: u32, interval: u32)
        ensures { self.new ≡ acked self.old current ts interval }
    {
        if serial::not_before(current, ts) {
            *self = self.measured(current.wrapping_sub(ts), interval);
        }
    }
}

// The window probe: what is to go out (bits ASK_SEND and ASK_TELL), when the next ask is due, and the wait before it. The
// bits stay a number: a host keeps them as a word, and the Rust's state has them.
ghost use Rattle.std.specs.Prelude.{◌≡◌};
ghost use Rattle.block.specs.Fresh.{fresh_probe};
ghost use Rattle.block.specs.WellFormed.{probe_fits};

use crate::Kcp;

#[derive(Clone, Copy, Debug, PartialEq, Eq)]
pub struct Probe {
    pub bits: u32,
    pub ts_probe: u32,
    pub probe_wait: u32,
}

impl Probe {
    // The probe of a fresh block.
    pub fn new() -> Probe
        ensures { result ≡ fresh_probe }
    {
        Probe {
            bits: 0,
            ts_probe: 0,
            probe_wait: 0,
        }
    }

    // Whether the wait is 0 or from 7,000 to 120,000.
    #[tactic(auto, unfolding(crate::specs::WellFormed::probe_fits))]
    pub fn fits(self) -> bool
        ensures { result ≡ probe_fits self }
    {
        let wait = self.probe_wait;
        wait == 0 || (Kcp::PROBE_INIT..=Kcp::PROBE_LIMIT).contains(&wait)
    }
}

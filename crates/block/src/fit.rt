// Whether the block is well formed, as far as its own numbers go; what each lent memory adds is asked of its part.
ghost use Rattle.std.specs.Prelude.{◌≡◌};
ghost use Rattle.block.specs.WellFormed.{own_numbers};

use crate::Kcp;

impl Kcp {
    // Whether the numbers of the block alone are well formed. A call that is handed any memory tests them.
    #[tactic(auto, unfolding(crate::specs::WellFormed::own_numbers))]
    pub fn own_numbers(self) -> bool
        ensures { result ≡ own_numbers self }
    {
        self.settings.fit()
            && self.probe.fits()
            && self.receiver.fits()
            && self.sender.fits()
            && self.acklist.fits()
    }
}

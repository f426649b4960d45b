// What the setters set, and the mode.
ghost use Rattle.std.specs.Prelude.{◌≡◌};
ghost use Rattle.block.specs.Fresh.{fresh_settings};
ghost use Rattle.block.specs.WellFormed.{settings_fit};
ghost use Rattle.block.specs.Parts.{with_mtu, with_nodelay, with_fastresend};
ghost use Rattle.block.specs.Setters.{resend_of};

use crate::Kcp;
use crate::sizes::within;

#[derive(Clone, Copy, Debug, PartialEq, Eq)]
pub struct Settings {
    pub conv: u32,
    pub mtu: u32,
    pub mss: u32,
    pub nodelay: bool,
    pub nocwnd: bool,
    pub stream: bool,
    pub input_conv: bool,
    pub fastresend: u32,
    pub fastlimit: u32,
    pub dead_link: u32,
}

// What fastresend becomes: a negative number keeps it.
#[tactic(auto, unfolding(crate::specs::Setters::resend_of, serial::specs::Branch::pick))]
pub fn resend_of(fastresend: u32, resend: i32) -> u32
    ensures { result ≡ resend_of fastresend resend }
{
    if 0 <= resend {
        resend as u32
    } else {
        fastresend
    }
}

impl Settings {
    // The settings of a fresh block.
    pub fn new(conv: u32, stream: bool) -> Settings
        ensures { result ≡ fresh_settings conv stream }
    {
        Settings {
            conv,
            mtu: Kcp::MTU_DEF,
            mss: Kcp::MTU_DEF - Kcp::OVERHEAD,
            nodelay: false,
            nocwnd: false,
            stream,
            input_conv: false,
            fastresend: 0,
            fastlimit: Kcp::FASTACK_LIMIT,
            dead_link: Kcp::DEADLINK,
        }
    }

    // Whether the mtu lies within its limits, and mss is the rest of it.
    #[tactic(auto, unfolding(crate::specs::WellFormed::settings_fit))]
    pub fn fit(self) -> bool
        ensures { result ≡ settings_fit self }
    {
        within(Kcp::MTU_LEAST, self.mtu as usize, Kcp::MTU_MOST)
            && self.mss == self.mtu - Kcp::OVERHEAD
    }

    // The settings with this mtu and this mss.
    pub fn with_mtu(self, mtu: u32, mss: u32) -> Settings
        ensures { result ≡ with_mtu self mtu mss }
    {
        Settings { mtu, mss, ..self }
    }

    // The settings with nodelay, fastresend unless the number is negative, and nocwnd.
    pub fn with_nodelay(self, nodelay: bool, resend: i32, nc: bool) -> Settings
        ensures { result ≡ with_fastresend (with_nodelay self nodelay nc) (resend_of self.fastresend resend) }
    {
        Settings {
            nodelay,
            nocwnd: nc,
            fastresend: resend_of(self.fastresend, resend),
            ..self
        }
    }
}

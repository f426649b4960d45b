// The windows of the sending side: the own, the peer's and that of congestion, with its threshold and its bytes.
ghost use Rattle.std.specs.Prelude.{◌≡◌};
ghost use Rattle.block.specs.Fresh.{fresh_congestion};

use crate::Kcp;

#[derive(Clone, Copy, Debug, PartialEq, Eq)]
pub struct Congestion {
    pub snd_wnd: u16,
    pub rmt_wnd: u16,
    pub cwnd: u16,
    pub ssthresh: u16,
    pub incr: u64,
}

impl Congestion {
    // The windows of a fresh block.
    pub fn new() -> Congestion
        ensures { result ≡ fresh_congestion }
    {
        Congestion {
            snd_wnd: Kcp::WND_SND,
            rmt_wnd: Kcp::WND_RCV,
            cwnd: 0,
            ssthresh: Kcp::THRESH_INIT,
            incr: 0,
        }
    }
}

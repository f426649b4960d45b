// The getters. Each leaves the block.
ghost use Rattle.std.specs.Prelude.{◌≡◌, ◌+◌};

use crate::Kcp;

impl Kcp {
    // The conversation.
    pub fn conv(self) -> u32
        ensures { result ≡ self.settings.conv }
    {
        self.settings.conv
    }

    // Whether the next input's conv is awaited.
    pub fn waiting_conv(self) -> bool
        ensures { result ≡ self.settings.input_conv }
    {
        self.settings.input_conv
    }

    // The most bytes of a datagram.
    pub fn mtu(self) -> usize
        ensures { result ≡ self.settings.mtu }
    {
        self.settings.mtu as usize
    }

    // The most bytes of a payload.
    pub fn mss(self) -> usize
        ensures { result ≡ self.settings.mss }
    {
        self.settings.mss as usize
    }

    // The send window.
    pub fn snd_wnd(self) -> u16
        ensures { result ≡ self.congestion.snd_wnd }
    {
        self.congestion.snd_wnd
    }

    // The receive window.
    pub fn rcv_wnd(self) -> u16
        ensures { result ≡ self.receiver.rcv_wnd }
    {
        self.receiver.rcv_wnd
    }

    // The peer's window.
    pub fn rmt_wnd(self) -> u16
        ensures { result ≡ self.congestion.rmt_wnd }
    {
        self.congestion.rmt_wnd
    }

    // How many segments are in flight or wait to be sent.
    pub fn wait_snd(self) -> usize
        ensures { result ≡ self.sender.ring.flying + self.sender.ring.unsent }
    {
        self.sender.segments()
    }

    // A header's bytes.
    pub fn header_len() -> usize
        ensures { result ≡ 24 }
    {
        Kcp::OVERHEAD as usize
    }

    // Whether the block was made as a stream.
    pub fn is_stream(self) -> bool
        ensures { result ≡ self.settings.stream }
    {
        self.settings.stream
    }

    // Whether a segment was resent as often as dead_link says.
    pub fn is_dead_link(self) -> bool
        ensures { result ≡ self.sender.dead }
    {
        self.sender.dead
    }
}

// The numbers of the sending side: the first unacknowledged number and the next, the ring of what is in flight and what waits to be sent, how many
// timeouts there were, and whether the link is dead.
ghost use Rattle.std.specs.Prelude.{◌≡◌, ◌+◌};
ghost use Rattle.block.specs.Fresh.{fresh_sender};
ghost use Rattle.block.specs.Parts.{with_snd_ring, with_una};
ghost use Rattle.block.specs.WellFormed.{sender_fits, send_numbers};

use crate::Kcp;
use snd_ring::SndRing;

#[derive(Clone, Copy, Debug, PartialEq, Eq)]
pub struct Sender {
    pub snd_una: u32,
    pub snd_nxt: u32,
    pub ring: SndRing,
    pub xmit: u32,
    pub dead: bool,
}

impl Sender {
    // The sending side of a fresh block.
    pub fn new() -> Sender
        ensures { result ≡ fresh_sender }
    {
        Sender {
            snd_una: 0,
            snd_nxt: 0,
            ring: SndRing {
                start: 0,
                reach: 0,
                flying: 0,
                unsent: 0,
            },
            xmit: 0,
            dead: false,
        }
    }

    // The sending side with this ring.
    pub fn with_ring(self, ring: SndRing) -> Sender
        ensures { result ≡ with_snd_ring self ring }
    {
        Sender { ring, ..self }
    }

    // The sending side with this first unacknowledged number.
    pub fn with_una(self, snd_una: u32) -> Sender
        ensures { result ≡ with_una self snd_una }
    {
        Sender { snd_una, ..self }
    }

    // How many segments are in flight or wait to be sent.
    pub fn segments(self) -> usize
        ensures { result ≡ self.ring.flying + self.ring.unsent }
    {
        self.ring.flying as usize + self.ring.unsent as usize
    }

    // Whether no more than 1,024 slots are in use, no more are in flight than its reach, and something is in flight where the reach is not 0.
    #[tactic(auto, unfolding(crate::specs::WellFormed::sender_fits))]
    pub fn fits(self) -> bool
        ensures { result ≡ sender_fits self }
    {
        let ring = self.ring;
        ring.reach as usize + ring.unsent as usize <= Kcp::SLOTS_MOST
            && ring.flying <= ring.reach
            && (ring.reach == 0 || 0 < ring.flying)
            && (ring.start as usize) < Kcp::SLOTS_MOST
    }

    // Whether the ring starts within the slots lent, and no more of them are in use than there are.
    pub fn send_numbers(self, slots: usize) -> bool
        ensures { result ≡ send_numbers slots self }
    {
        let ring = self.ring;
        (ring.start as usize) < slots && ring.reach as usize + ring.unsent as usize <= slots
    }
}

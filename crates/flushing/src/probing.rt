// The window probe while the peer's window is 0.
ghost use Rattle.std.specs.Prelude.{◌≡◌};
ghost use Rattle.block.specs.WellFormed.{ProbeFits};
ghost use Rattle.flushing.specs.Probing.{ask_set, tell_set, ask_bit, longer_wait, armed, probed, probe_wnd_size};

use block::Kcp;
use block::probe::Probe;

// Whether an ask is to go out.
#[tactic(auto, using(crate::proofs::Bits::ask_tested))]
pub fn ask_set(bits: u32) -> bool
    ensures { result ≡ ask_set bits }
{
    bits & Kcp::ASK_SEND != 0
}

// Whether a tell is to go out.
#[tactic(auto, using(crate::proofs::Bits::tell_tested))]
pub fn tell_set(bits: u32) -> bool
    ensures { result ≡ tell_set bits }
{
    bits & Kcp::ASK_TELL != 0
}

// The bits with the ask bit set.
#[tactic(auto, using(crate::proofs::Bits::ask_put))]
fn ask_bit(bits: u32) -> u32
    ensures { result ≡ ask_bit bits }
{
    bits | Kcp::ASK_SEND
}

// A wait and half of it, at most the limit.
fn longer_wait(wait: u32) -> u32
    ensures { result ≡ longer_wait wait }
{
    wait.wrapping_add(wait / 2).min(Kcp::PROBE_LIMIT)
}

// A wait that starts now.
fn armed(current: u32, bits: u32, wait: u32) -> Probe
    ensures { result ≡ armed current bits wait }
{
    Probe {
        bits,
        ts_probe: current.wrapping_add(wait),
        probe_wait: wait,
    }
}

// The probe while the peer's window is 0: a first wait, or an ask and a longer one once it is over. No wait of a well-formed block is under the first.
#[tactic(auto, unfolding(crate::specs::Probing::probed, serial::specs::Branch::pick))]
fn probed(probe: Probe, current: u32) -> Probe
    requires { ProbeFits probe }
    ensures { result ≡ probed current probe }
{
    let wait = probe.probe_wait;
    if wait == 0 {
        return armed(current, probe.bits, Kcp::PROBE_INIT);
    }
    if serial::not_before(current, probe.ts_probe) {
        return armed(
            current,
            ask_bit(probe.bits),
            longer_wait(wait.max(Kcp::PROBE_INIT)),
        );
    }
    probe
}

// The probe of a flush, before its bits go out: it runs while the peer's window is 0, and else is off.
#[tactic(auto, unfolding(crate::specs::Probing::probe_wnd_size, serial::specs::Branch::pick))]
pub fn probe_wnd_size(probe: Probe, rmt_wnd: u16, current: u32) -> Probe
    requires { ProbeFits probe }
    ensures { result ≡ probe_wnd_size rmt_wnd current probe }
{
    if rmt_wnd == 0 {
        return probed(probe, current);
    }
    Probe {
        ts_probe: 0,
        probe_wait: 0,
        ..probe
    }
}

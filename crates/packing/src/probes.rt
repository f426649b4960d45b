// The ask and the tell of a flush.
ghost use Rattle.std.specs.Prelude.{◌≡◌, ◌+◌, ◌*◌, ◌≤◌, ◌<◌, ◌^◌, [], ◌∷◌, map, length};
ghost use Rattle.serial.specs.Branch.{pick};
ghost use Rattle.ring.specs.Records.{put};
ghost use Rattle.flushing.specs.Pack.{flat, pack_sizes};
ghost use Rattle.packing.specs.Packer.{sized};
ghost use Rattle.packing.specs.Acks.{acks_of, probe_head};

use crate::packer::Packer;
use flushing::headers::Told;

// A probe, if it is to go out, by its size alone.
pub fn probe_sized(p: Packer, mtu: usize, on: bool) -> Packer
    requires used_bound { p.start + p.used + 24 < 2 ^ 32 }
    requires count_bound { p.count < 2 ^ 32 }
    ensures { result ≡ sized mtu p (pick on (24 ∷ []) []) }
{
    if on { p.size(mtu, wire::OVERHEAD) } else { p }
}

// The bytes of a probe: sn and ts of the last of n acks, else 0.
pub fn probe_head(told: Told, acks: &[u32], n: usize, cmd: u8) -> [u8; 24]
    requires { 2 * n ≤ length acks.now }
    ensures { result ≡ probe_head told cmd (acks_of acks.now n) }
{
    if n == 0 {
        return told.bare_head(cmd, 0, 0).bytes();
    }
    let sn = ring::number_at(acks, 2, n - 1, 0);
    let ts = ring::number_at(acks, 2, n - 1, 1);
    told.bare_head(cmd, sn, ts).bytes()
}

// A probe with that head, if it is to go out: its bytes behind those that are there, and the length of the datagram that goes out before it, if one
// does.
pub fn probe_put(
    p: Packer,
    mtu: usize,
    on: bool,
    head: [u8; 24],
    out: &mut [u8],
    lengths: &mut [u16],
) -> Packer
    requires used_bound { p.start + p.used + 24 < 2 ^ 32 }
    requires used_bound_2 { p.used < 2 ^ 16 }
    requires head_in_bounds { p.start + p.used + length (flat (pick on (head ∷ []) [])) ≤ length out.old }
    requires head_in_bounds_2 { p.count + length (pack_sizes mtu p.used (map length (pick on (head ∷ []) []))).0 ≤ length lengths.old }
    ensures value { result ≡ sized mtu p (map length (pick on (head ∷ []) [])) }
    ensures out_after { out.new ≡ put out.old (p.start + p.used) (flat (pick on (head ∷ []) [])) }
    ensures lengths_after { lengths.new ≡ put lengths.old p.count (pack_sizes mtu p.used (map length (pick on (head ∷ []) []))).0 }
{
    if on {
        let at = p.start + p.used;
        ring::copy(&head, &mut out[at..]);
        return p.cut(mtu, wire::OVERHEAD, lengths);
    }
    p
}

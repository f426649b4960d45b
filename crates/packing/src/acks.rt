// The acks of a flush: by their sizes, with the lengths of their datagrams, and their bytes.
ghost use Rattle.std.specs.Prelude.{◌≡◌, ◌+◌, ◌-◌, ◌*◌, ◌≤◌, ◌<◌, ◌^◌, length, replicate};
ghost use Rattle.ring.specs.Records.{put};
ghost use Rattle.flushing.specs.Pack.{flat, pack_sizes};
ghost use Rattle.packing.specs.Packer.{sized};
ghost use Rattle.packing.specs.Acks.{acks_from, ack_bytes};

use crate::packer::Packer;
use crate::puts::put_header;
use flushing::headers::Told;

// n acks, by their sizes alone.
pub fn acks_sized(p: Packer, mtu: usize, n: usize) -> Packer
    requires mtu_bound { mtu ≤ 1500 }
    requires n_bound { n ≤ 4096 }
    requires used_bound { p.used ≤ 1500 }
    requires start_bound { p.start < 2 ^ 31 }
    requires count_bound { p.count < 2 ^ 31 }
    ensures { result ≡ sized mtu p (replicate n 24) }
{
    let mut q = p;
    for _ in 0..n {
        q = q.size(mtu, wire::OVERHEAD);
    }
    q
}

// The same, and the lengths of the datagrams that go out. A walk of its own: to pass the step to one walk would take more lines than this.
pub fn acks_cut(p: Packer, mtu: usize, n: usize, lengths: &mut [u16]) -> Packer
    requires mtu_bound { mtu ≤ 1500 }
    requires n_bound { n ≤ 4096 }
    requires used_bound { p.used ≤ 1500 }
    requires start_bound { p.start < 2 ^ 31 }
    requires n_in_bounds { p.count + length (pack_sizes mtu p.used (replicate n 24)).0 ≤ length lengths.old }
    ensures value { result ≡ sized mtu p (replicate n 24) }
    ensures lengths_after { lengths.new ≡ put lengths.old p.count (pack_sizes mtu p.used (replicate n 24)).0 }
{
    let mut q = p;
    for _ in 0..n {
        q = q.cut(mtu, wire::OVERHEAD, lengths);
    }
    q
}

// The acks of the pairs from `from` up to `to`, end to end from dst[at] on.
pub fn put_acks(told: Told, acks: &[u32], from: usize, to: usize, dst: &mut [u8], at: usize)
    requires from_le_to { from ≤ to }
    requires to_in_bounds { 2 * to ≤ length acks.now }
    requires from_in_bounds { at + 24 * (to - from) ≤ length dst.old }
    ensures { dst.new ≡ put dst.old at (flat (ack_bytes told (acks_from acks.now from (to - from)))) }
{
    let mut end = at;
    for i in from..to {
        let sn = ring::number_at(acks, 2, i, 0);
        let ts = ring::number_at(acks, 2, i, 1);
        put_header(told.bare_head(wire::ACK, sn, ts), dst, end);
        end += wire::OVERHEAD;
    }
}

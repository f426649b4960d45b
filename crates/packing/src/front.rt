// The front of a flush, all before its segments: what waits, the acks, the ask and the tell.
ghost use Rattle.std.specs.Prelude.{◌≡◌, ◌+◌, ◌*◌, ◌≤◌, map, ◌++◌, length, take};
ghost use Rattle.ring.specs.Records.{put};
ghost use Rattle.flushing.specs.Pack.{flat, pack_sizes};
ghost use Rattle.packing.specs.Packer.{holding, sized};
ghost use Rattle.packing.specs.Acks.{acks_of};
ghost use Rattle.packing.specs.Front.{front_pieces, front_sizes};

use crate::acks::{acks_cut, acks_sized, put_acks};
use crate::packer::Packer;
use crate::probes::{probe_head, probe_put, probe_sized};
use crate::puts::put_waiting;
use flushing::headers::Told;
use flushing::probing::{ask_set, tell_set};

// By sizes alone: n acks and the probes of those bits behind `held` waiting bytes.
pub fn front_sized(held: usize, mtu: usize, n: usize, bits: u32) -> Packer
    requires mtu_bound { mtu ≤ 1500 }
    requires n_bound { n ≤ 4096 }
    requires held_bound { held ≤ 1500 }
    ensures value { result ≡ sized mtu (holding held) (front_sizes n bits) }
    ensures used_bound { (result.start + result.used ≤ 1500 + 24 * 4098) × (result.count ≤ 4098) × (result.used ≤ 1500) }
{
    let a = acks_sized(Packer::new(held), mtu, n);
    let b = probe_sized(a, mtu, ask_set(bits));
    probe_sized(b, mtu, tell_set(bits))
}

// The bytes from the start of `out` on, and the lengths of the datagrams that are full from the start of `lengths` on.
pub fn front_put(
    told: Told,
    bits: u32,
    mtu: usize,
    acks: &[u32],
    n: usize,
    waiting: &[u8],
    held: usize,
    out: &mut [u8],
    lengths: &mut [u16],
) -> Packer
    requires mtu_bound { mtu ≤ 1500 }
    requires n_in_bounds { 2 * n ≤ length acks.now }
    requires n_bound { n ≤ 4096 }
    requires waiting_len { length waiting.now ≡ 1500 }
    requires held_bound { held ≤ 1500 }
    requires n_in_bounds_2 { held + length (flat (front_pieces told bits (acks_of acks.now n))) ≤ length out.old }
    requires n_in_bounds_3 { length (pack_sizes mtu held (map length (front_pieces told bits (acks_of acks.now n)))).0 ≤ length lengths.old }
    ensures value { result ≡ sized mtu (holding held) (map length (front_pieces told bits (acks_of acks.now n))) }
    ensures out_after { out.new ≡ put out.old 0 (take held waiting.now ++ flat (front_pieces told bits (acks_of acks.now n))) }
    ensures lengths_after { lengths.new ≡ put lengths.old 0 (pack_sizes mtu held (map length (front_pieces told bits (acks_of acks.now n)))).0 }
{
    put_waiting(waiting, held, out);
    put_acks(told, acks, 0, n, out, held);
    let a = acks_cut(Packer::new(held), mtu, n, lengths);
    let asking = probe_head(told, acks, n, wire::ASK);
    let b = probe_put(a, mtu, ask_set(bits), asking, out, lengths);
    let telling = probe_head(told, acks, n, wire::TELL);
    probe_put(b, mtu, tell_set(bits), telling, out, lengths)
}

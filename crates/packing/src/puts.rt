// Bytes put into lent bytes.
ghost use Rattle.std.specs.Prelude.{◌≡◌, ◌+◌, ◌≤◌, length, take};
ghost use Rattle.ring.specs.Records.{put};
ghost use Rattle.wire.specs.Header.{header_bytes};

use wire::Header;

// A header's bytes, from dst[at] on. They stand in an array of their own, so that they are moved whole.
pub fn put_header(header: Header, dst: &mut [u8], at: usize)
    requires { at + 24 ≤ length dst.old }
    ensures { dst.new ≡ put dst.old at (header_bytes header) }
{
    let b = header.bytes();
    ring::copy(&b, &mut dst[at..]);
}

// The first `held` of the waiting bytes, to the start of dst. By way of an array, so that the compiler makes one memmove of it.
pub fn put_waiting(waiting: &[u8], held: usize, dst: &mut [u8])
    requires held_bound { held ≤ 1500 }
    requires held_in_bounds { held ≤ length waiting.now }
    requires held_in_bounds_2 { held ≤ length dst.old }
    ensures { dst.new ≡ put dst.old 0 (take held waiting.now) }
{
    let mut t = [0u8; 1500];
    ring::copy(&waiting[0..held], &mut t);
    ring::copy(&t[0..held], dst);
}

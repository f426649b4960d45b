// The functions that a host in C or Rust links. A slice is a pointer and a length; a place for a number is a pointer to it.
#![tactic(auto)]

ghost use Rattle.std.specs.Prelude.{◌≡◌, min, max};
ghost use Rattle.serial.specs.Wrap.{timediff};
ghost use Rattle.wire.specs.Header.{conv_of, sn_of, header_at, header_bytes};
ghost use Rattle.wire.specs.Helpers.{got, put_of, number_of, with_conv};
ghost use Rattle.estimator.specs.Estimate.{measured};
ghost use Rattle.kcp_c.specs.Answered.{Answered};
ghost use Rattle.kcp_c.specs.Numbers.{header, header_numbers, estimator, estimator_numbers};

use estimator::Estimator;
use wire::Header;

pub mod calls; // the calls over a block's words
pub mod receiver; // those that are handed the receive memory
pub mod sender; // those that are handed the send memory
pub mod arrivals; // one datagram
pub mod flushes; // what goes out, and when

// timediff(a, b).
#[unsafe(no_mangle)]
pub extern "C" fn kcp_timediff(a: u32, b: u32) -> i32
    ensures { result ≡ timediff a b }
{
    serial::timediff(a, b)
}

// x raised to low, then cut to high.
#[unsafe(no_mangle)]
pub extern "C" fn kcp_bound(low: u32, x: u32, high: u32) -> u32
    ensures { result ≡ min (max low x) high }
{
    serial::bound(low, x, high)
}

// The conversation of the header at the front of `buf`, put into `conv`; 0, or 16 under 24 bytes.
#[unsafe(no_mangle)]
pub extern "C" fn kcp_get_conv(buf: &[u8], conv: &mut u32) -> u32
    ensures { Answered (got conv_of buf.now) conv.old result conv.new }
{
    let Ok(n) = wire::get_conv(buf) else {
        return wire::SHORT_HEADER;
    };
    *conv = n;
    0
}

// The number of the segment whose header stands at the front of `buf`, put into `sn`; 0, or 16 under 24 bytes.
#[unsafe(no_mangle)]
pub extern "C" fn kcp_get_sn(buf: &[u8], sn: &mut u32) -> u32
    ensures { Answered (got sn_of buf.now) sn.old result sn.new }
{
    let Ok(n) = wire::get_sn(buf) else {
        return wire::SHORT_HEADER;
    };
    *sn = n;
    0
}

// Sets the conversation of the header at the front of `buf`; 0, or 16 under 24 bytes, which leaves all.
#[unsafe(no_mangle)]
pub extern "C" fn kcp_set_conv(buf: &mut [u8], conv: u32) -> u32
    ensures { (result ≡ number_of (put_of buf.old)) × (buf.new ≡ with_conv buf.old conv) }
{
    let Ok(()) = wire::set_conv(buf, conv) else {
        return wire::SHORT_HEADER;
    };
    0
}

// The 24 bytes of a header, put into `out`.
#[unsafe(no_mangle)]
pub extern "C" fn kcp_header_bytes(
    out: &mut [u8; 24],
    conv: u32,
    cmd: u8,
    frg: u8,
    wnd: u16,
    ts: u32,
    sn: u32,
    una: u32,
    len: u32,
)
    ensures { out.new ≡ header_bytes (header conv cmd frg wnd ts sn una len) }
{
    let h = Header {
        conv,
        cmd,
        frg,
        wnd,
        ts,
        sn,
        una,
        len,
    };
    *out = h.bytes();
}

// The numbers of the header in `bytes`, in the order of the layout, put into `out`.
#[unsafe(no_mangle)]
pub extern "C" fn kcp_header_numbers(bytes: &[u8; 24], out: &mut [u32; 8])
    ensures { out.new ≡ header_numbers (header_at bytes.now 0) }
{
    let h = wire::read_header(bytes, 0);
    *out = [
        h.conv,
        h.cmd as u32,
        h.frg as u32,
        h.wnd as u32,
        h.ts,
        h.sn,
        h.una,
        h.len,
    ];
}

// The estimator srtt, rttval, rto, minrto after one more round trip, of rtt.
#[unsafe(no_mangle)]
pub extern "C" fn kcp_measured(e: &mut [u32; 4], rtt: u32, interval: u32)
    ensures { e.new ≡ estimator_numbers (measured (estimator e.old) rtt interval) }
{
    let before = Estimator {
        srtt: e[0],
        rttval: e[1],
        rto: e[2],
        minrto: e[3],
    };
    let r = before.measured(rtt, interval);
    *e = [r.srtt, r.rttval, r.rto, r.minrto];
}

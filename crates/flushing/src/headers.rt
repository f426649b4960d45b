// The headers of a flush.
ghost use Rattle.std.specs.Prelude.{◌≡◌};
ghost use Rattle.flushing.specs.Pieces.{bare_head, push_head};

use crate::due::Record;
use wire::Header;

// What every header of a flush tells: the conv, what is left of the receive window, and the next number awaited.
#[derive(Clone, Copy)]
pub struct Told {
    pub conv: u32,
    pub wnd: u16,
    pub una: u32,
}

impl Told {
    // The header of an ack, an ask or a tell.
    pub fn bare_head(self, cmd: u8, sn: u32, ts: u32) -> Header
        ensures { result ≡ bare_head self cmd sn ts }
    {
        Header {
            conv: self.conv,
            cmd,
            frg: 0,
            wnd: self.wnd,
            ts,
            sn,
            una: self.una,
            len: 0,
        }
    }

    // The header of a push with len bytes: its conv is that of its first flight.
    pub fn push_head(self, record: Record, len: u32) -> Header
        ensures { result ≡ push_head self «record» len }
    {
        Header {
            conv: record.conv,
            frg: (record.frg % 256) as u8,
            len,
            ..self.bare_head(wire::PUSH, record.sn, record.ts)
        }
    }
}

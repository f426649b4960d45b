// The segment header: 24 bytes, little-endian, and the helpers that read and set a number of it in raw bytes.
#![tactic(auto)]

ghost use Rattle.std.specs.Prelude.{◌≡◌, ◌+◌, ◌≤◌, length};
ghost use Rattle.wire.specs.LittleEndian.{le_at};
ghost use Rattle.wire.specs.Header.{header_at, header_bytes, conv_of, sn_of};
ghost use Rattle.wire.specs.Commands.{command_of, cmd_of};
ghost use Rattle.wire.specs.Helpers.{Got, ConvSet};

// cmd: push, ack, window ask and window tell.
pub const PUSH: u8 = 81;

pub const ACK: u8 = 82;

pub const ASK: u8 = 83;

pub const TELL: u8 = 84;

// The bytes of a header.
pub const OVERHEAD: usize = 24;

// What a segment is for.
#[derive(Clone, Copy, Debug, PartialEq, Eq)]
pub enum Kind {
    Push,
    Ack,
    Ask,
    Tell,
}

// A cmd that is none of the four.
#[derive(Clone, Copy, Debug, PartialEq, Eq)]
pub struct UnsupportedCmd {
    pub cmd: u8,
}

// Refusal 16 of the scope document: under 24 bytes.
#[derive(Clone, Copy, Debug, PartialEq, Eq)]
pub struct ShortHeader;

// Its number.
pub const SHORT_HEADER: u32 = 16;

#[derive(Clone, Copy, Debug, PartialEq, Eq)]
pub struct Header {
    pub conv: u32,
    pub cmd: u8,
    pub frg: u8,
    pub wnd: u16,
    pub ts: u32,
    pub sn: u32,
    pub una: u32,
    pub len: u32,
}

// The kind of a cmd, if it is one of the four.
impl TryFrom<u8> for Kind {
    type Error = UnsupportedCmd;

    ghost try_from_gives = { λ cmd r. r ≡ command_of cmd };

    fn try_from(cmd: u8) -> Result<Kind, UnsupportedCmd> {
        match cmd {
            PUSH => Ok(Kind::Push),
            ACK => Ok(Kind::Ack),
            ASK => Ok(Kind::Ask),
            TELL => Ok(Kind::Tell),
            _ => Err(UnsupportedCmd { cmd }),
        }
    }
}

impl From<Kind> for u8 {
    ghost from_gives = { λ kind cmd. cmd ≡ cmd_of kind };

    // The cmd of a kind.
    fn from(kind: Kind) -> u8
        ensures { result ≡ cmd_of kind }
    {
        match kind {
            Kind::Push => PUSH,
            Kind::Ack => ACK,
            Kind::Ask => ASK,
            Kind::Tell => TELL,
        }
    }
}

// The number whose two bytes stand at `at`. One function for each width, since from_le_bytes is the method of a type and of no trait.
fn half(s: &[u8], at: usize) -> u16
    requires { at + 2 ≤ length s.now }
    ensures { result ≡ le_at 2 s.now at }
{
    u16::from_le_bytes([s[at], s[at + 1]])
}

// The number whose four bytes stand at `at`, the low one first.
pub fn word(s: &[u8], at: usize) -> u32
    requires { at + 4 ≤ length s.now }
    ensures { result ≡ le_at 4 s.now at }
{
    u32::from_le_bytes([s[at], s[at + 1], s[at + 2], s[at + 3]])
}

// The header whose 24 bytes stand at `at`.
#[tactic(auto, unfolding(crate::specs::Header::header_at))]
pub fn read_header(s: &[u8], at: usize) -> Header
    requires { at + 24 ≤ length s.now }
    ensures { result ≡ header_at s.now at }
{
    Header {
        conv: word(s, at),
        cmd: s[at + 4],
        frg: s[at + 5],
        wnd: half(s, at + 6),
        ts: word(s, at + 8),
        sn: word(s, at + 12),
        una: word(s, at + 16),
        len: word(s, at + 20),
    }
}

impl Header {
    // The 24 bytes of the header.
    pub fn bytes(self) -> [u8; 24]
        ensures { result ≡ header_bytes self }
    {
        let mut bytes = [0u8; 24];
        bytes[..4].copy_from_slice(&self.conv.to_le_bytes());
        bytes[4] = self.cmd;
        bytes[5] = self.frg;
        bytes[6..8].copy_from_slice(&self.wnd.to_le_bytes());
        bytes[8..12].copy_from_slice(&self.ts.to_le_bytes());
        bytes[12..16].copy_from_slice(&self.sn.to_le_bytes());
        bytes[16..20].copy_from_slice(&self.una.to_le_bytes());
        bytes[20..].copy_from_slice(&self.len.to_le_bytes());
        bytes
    }
}

// The conversation of the header at the front of `buf`, whatever else stands there; refused by 16 under 24 bytes.
pub fn get_conv(buf: &[u8]) -> Result<u32, ShortHeader>
    ensures { Got conv_of buf.now result }
{
    if buf.len() < OVERHEAD {
        Err(ShortHeader)
    } else {
        Ok(word(buf, 0))
    }
}

// The number of the segment whose header stands at the front of `buf`; refused by 16 under 24 bytes.
pub fn get_sn(buf: &[u8]) -> Result<u32, ShortHeader>
    ensures { Got sn_of buf.now result }
{
    if buf.len() < OVERHEAD {
        Err(ShortHeader)
    } else {
        Ok(word(buf, 12))
    }
}

// Sets the conversation of the header at the front of `buf`, and leaves every byte past it; refused by 16 under 24 bytes, which leaves all.
pub fn set_conv(buf: &mut [u8], conv: u32) -> Result<(), ShortHeader>
    ensures { ConvSet buf.old conv result buf.new }
{
    if buf.len() < OVERHEAD {
        return Err(ShortHeader);
    }
    buf[..4].copy_from_slice(&conv.to_le_bytes());
    Ok(())
}

// The sixteen refusals, their numbers and values.
ghost use Rattle.std.specs.Prelude.{◌≡◌};
ghost use Rattle.block.specs.declared.refusal.Refusal.TheVariants.{ShortHeader as ShortOne, UnsupportedCmd as OtherCmd};
ghost use Rattle.block.specs.Refusals.{number_of, values_of, number_of_answer, row_of};

use wire::{ShortHeader, UnsupportedCmd};

// Why a call was refused, with the values that go with it.
#[derive(Clone, Copy, Debug, PartialEq, Eq)]
pub enum Refusal {
    InvalidSegmentSize { size: usize },
    ConvInconsistent { own: u32, met: u32 },
    InvalidSegmentDataSize { len: u32, left: usize },
    UnsupportedCmd { cmd: u8 },
    RecvQueueEmpty,
    ExpectingFragment,
    UserBufTooSmall,
    UserBufTooBig,
    NeedUpdate,
    InvalidMtu { mtu: usize },
    DatagramTooBig,
    SendPoolFull,
    OutTooSmall,
    WindowTooLarge,
    BadPool,
    ShortHeader,
}

// The values of a refusal as a row: how many there are, as `row_of` counts them, and 0 in the place of one that is missing.
#[derive(Clone, Copy, Debug, PartialEq, Eq)]
pub struct Values {
    pub count: u32,
    pub first: usize,
    pub second: usize,
}

impl Refusal {
    // The number of the refusal.
    pub fn number(self) -> u32
        ensures { result ≡ number_of self }
    {
        match self {
            Refusal::InvalidSegmentSize { size: _ } => 1,
            Refusal::ConvInconsistent { own: _, met: _ } => 2,
            Refusal::InvalidSegmentDataSize { len: _, left: _ } => 3,
            Refusal::UnsupportedCmd { cmd: _ } => 4,
            Refusal::RecvQueueEmpty => 5,
            Refusal::ExpectingFragment => 6,
            Refusal::UserBufTooSmall => 7,
            Refusal::UserBufTooBig => 8,
            Refusal::NeedUpdate => 9,
            Refusal::InvalidMtu { mtu: _ } => 10,
            Refusal::DatagramTooBig => 11,
            Refusal::SendPoolFull => 12,
            Refusal::OutTooSmall => 13,
            Refusal::WindowTooLarge => 14,
            Refusal::BadPool => 15,
            Refusal::ShortHeader => wire::SHORT_HEADER,
        }
    }

    // The values that go with the refusal.
    pub fn values(self) -> Values
        ensures { result ≡ row_of (values_of self) }
    {
        match self {
            Refusal::InvalidSegmentSize { size } => Values {
                count: 1,
                first: size,
                second: 0,
            },
            Refusal::ConvInconsistent { own, met } => Values {
                count: 2,
                first: own as usize,
                second: met as usize,
            },
            Refusal::InvalidSegmentDataSize { len, left } => Values {
                count: 2,
                first: len as usize,
                second: left,
            },
            Refusal::UnsupportedCmd { cmd } => Values {
                count: 1,
                first: cmd as usize,
                second: 0,
            },
            Refusal::InvalidMtu { mtu } => Values {
                count: 1,
                first: mtu,
                second: 0,
            },
            Refusal::RecvQueueEmpty
            | Refusal::ExpectingFragment
            | Refusal::UserBufTooSmall
            | Refusal::UserBufTooBig
            | Refusal::NeedUpdate
            | Refusal::DatagramTooBig
            | Refusal::SendPoolFull
            | Refusal::OutTooSmall
            | Refusal::WindowTooLarge
            | Refusal::BadPool
            | Refusal::ShortHeader => Values {
                count: 0,
                first: 0,
                second: 0,
            },
        }
    }
}

// The number of the refusal, or 0.
pub fn number_of<T: Copy>(answer: Result<T, Refusal>) -> u32
    ensures { result ≡ number_of_answer answer }
{
    match answer {
        Ok(_) => 0,
        Err(why) => why.number(),
    }
}

// A header helper's refusal is the last of the sixteen.
impl From<ShortHeader> for Refusal {
    ghost from_gives = { λ e why. why ≡ ShortOne };

    fn from(_e: ShortHeader) -> Refusal {
        Refusal::ShortHeader
    }
}

// So is that of a cmd that is none of the four.
impl From<UnsupportedCmd> for Refusal {
    ghost from_gives = { λ e why. why ≡ OtherCmd e.cmd };

    fn from(e: UnsupportedCmd) -> Refusal {
        Refusal::UnsupportedCmd { cmd: e.cmd }
    }
}

// The control block: its parts by value, its constants, how it is made, the refusals and their numbers, whether it is well formed, and the
// setters and getters that are handed no pool.
#![tactic(auto)]

use acklist::AckList;
use clock::Clock;
use congestion::Congestion;
use estimator::Estimator;
use probe::Probe;
use receiver::Receiver;
use sender::Sender;
use settings::Settings;

pub mod refusal; // the sixteen refusals, their numbers and values
pub mod settings; // what the setters set
pub mod clock; // the stored time and the next flush
pub mod congestion; // the windows of the sending side
pub mod probe; // the window probe
pub mod receiver; // the numbers of the receiving side
pub mod acklist; // how much of the ack memory is in use
pub mod sender; // the numbers of the sending side
pub mod sizes; // the tests of lent sizes
pub mod make; // the constructors
pub mod fit; // the tests of the block
pub mod set; // the setters
pub mod get; // the getters

// The block. A function takes the part that it needs; one on the whole block only moves parts.
#[derive(Clone, Copy, Debug, PartialEq, Eq)]
pub struct Kcp {
    pub settings: Settings,
    pub clock: Clock,
    pub estimator: Estimator,
    pub congestion: Congestion,
    pub probe: Probe,
    pub receiver: Receiver,
    pub acklist: AckList,
    pub sender: Sender,
}

// The defaults and the limits, under the names of the Rust's constants where it has one.
impl Kcp {
    // A header's bytes, and the mtu: that of a fresh block, the least and the most.
    pub const OVERHEAD: u32 = 24;

    pub const MTU_DEF: u32 = 1400;

    pub const MTU_LEAST: usize = 50;

    pub const MTU_MOST: usize = 1500;

    // The windows and the threshold of a fresh block; no receive window is under WND_RCV, and no threshold under THRESH_MIN.
    pub const WND_SND: u16 = 32;

    pub const WND_RCV: u16 = 128;

    // The largest receive window that any lent memory bears.
    pub const WND_MOST: usize = 512;

    pub const THRESH_INIT: u16 = 2;

    pub const THRESH_MIN: u16 = 2;

    // The flush interval of a fresh block, the least and the most.
    pub const INTERVAL: u32 = 100;

    pub const INTERVAL_LEAST: u32 = 10;

    pub const INTERVAL_MOST: u32 = 5000;

    // The least timeout with nodelay, and without.
    pub const RTO_NDL: u32 = 30;

    pub const RTO_MIN: u32 = 100;

    // How often a segment is resent fast, and how often at all before the link is dead.
    pub const FASTACK_LIMIT: u32 = 5;

    pub const DEADLINK: u32 = 20;

    // The first and the longest wait of the window probe.
    pub const PROBE_INIT: u32 = 7000;

    pub const PROBE_LIMIT: u32 = 120_000;

    // The bits of the probe: an ask and a tell are to go out.
    pub const ASK_SEND: u32 = 1;

    pub const ASK_TELL: u32 = 2;

    // The lent slots and pairs: least and most; the numbers of a record and of a pair.
    pub const RCV_LEAST: usize = 256;

    pub const SND_LEAST: usize = 128;

    pub const SLOTS_MOST: usize = 1024;

    pub const RCV_RECORD: usize = 1;

    pub const SND_RECORD: usize = 9;

    pub const ACKS_LEAST: usize = 128;

    pub const ACKS_MOST: usize = 4096;

    pub const ACK_PAIR: usize = 2;

    // The bytes of a payload slot, and the bytes that may wait.
    pub const ROOM: usize = 1476;

    pub const WAITING: usize = 1500;
}

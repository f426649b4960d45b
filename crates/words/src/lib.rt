// A control block as thirty-five words, for a host that keeps it as a list of numbers. Any number is a block's, but for word 0, whose bits past the
// flags are 0; so reading tests one word, and a call loads and stores the words that it needs.
#![tactic(auto)]

ghost use Rattle.std.specs.Prelude.{◌≡◌, true, false, MatchOption, ◌&&◌, ◌+◌, ◌*◌, ◌/◌, ◌%◌, ◌<◌, length, set};
ghost use Rattle.words.specs.Words.{pair, flags_of, words_of, low, high, flag, settings_of, clock_of, estimator_of, congestion_of, probe_of, receiver_of, acklist_of, sender_of, block_of, is_block, with_flags, with_mtu_words, with_rcv_words, with_snd_words, with_windows, with_nodelay_words, with_probe_words, with_cwnd_words, with_clock_words, with_turn_words, with_count_words, with_sent_words};

use block::Kcp;
use block::acklist::AckList;
use block::clock::Clock;
use block::congestion::Congestion;
use block::probe::Probe;
use block::receiver::Receiver;
use block::sender::Sender;
use block::settings::Settings;
use estimator::Estimator;
use rcv_ring::RcvRing;
use snd_ring::SndRing;

// How many words a block has.
pub const WORDS: usize = 35;

// The number of Refusal::BadPool, by which words that are no block are refused, and that of a call that is not.
pub const NO_BLOCK: u32 = 15;

pub const DONE: u32 = 0;

// Where each number stands; two numbers of 16 bits share a word, and so do the flags.
const FLAGS: usize = 0;

const MTU: usize = 1;

const MSS: usize = 2;

const PROBE_WAIT: usize = 3;

const RCV_NXT: usize = 4;

const RCV_WINDOWS: usize = 5;

const RCV_START: usize = 6;

const RCV_QUEUED: usize = 7;

const RCV_REACH: usize = 8;

const SND_START: usize = 9;

const SND_REACH: usize = 10;

const FLYING: usize = 11;

const UNSENT: usize = 12;

const ACKS: usize = 13;

const WAITING: usize = 14;

pub const PROBE_BITS: usize = 15;

pub const CONV: usize = 16;

const SND_UNA: usize = 17;

const SND_NXT: usize = 18;

const SND_WINDOWS: usize = 19;

const CWND: usize = 20;

const INCR_LOW: usize = 21;

const INCR_HIGH: usize = 22;

const SRTT: usize = 23;

const RTTVAL: usize = 24;

const RTO: usize = 25;

pub const MINRTO: usize = 26;

const CURRENT: usize = 27;

pub const INTERVAL: usize = 28;

const TS_FLUSH: usize = 29;

const TS_PROBE: usize = 30;

const XMIT: usize = 31;

pub const FASTRESEND: usize = 32;

const FASTLIMIT: usize = 33;

pub const DEAD_LINK: usize = 34;

// The numbers of 16 bits and of 32.
const SHORT: u32 = 1 << 16;

const LONG: u64 = 1 << 32;

// Whether words are those of a block.
#[tactic(auto, unfolding(crate::specs::Words::is_block))]
pub fn is_block(words: &[u32]) -> bool
    ensures { result ≡ is_block words.now }
{
    words.len() == WORDS && words[FLAGS] < 64
}

// The flag of value v.
fn flag(words: &[u32], v: u32) -> bool
    requires words_len { length words.now ≡ 35 }
    requires v_nonzero { 0 < v }
    ensures { result ≡ flag words.now v }
{
    words[FLAGS] / v % 2 == 1
}

// The low half of word i.
fn low(words: &[u32], i: usize) -> u16
    requires { i < length words.now }
    ensures { result ≡ low words.now i }
{
    (words[i] % SHORT) as u16
}

// The high half of word i.
fn high(words: &[u32], i: usize) -> u16
    requires { i < length words.now }
    ensures { result ≡ high words.now i }
{
    (words[i] / SHORT) as u16
}

// The settings in words.
fn settings(words: &[u32]) -> Settings
    requires { length words.now ≡ 35 }
    ensures { result ≡ settings_of words.now }
{
    Settings {
        conv: words[CONV],
        mtu: words[MTU],
        mss: words[MSS],
        nodelay: flag(words, 1),
        nocwnd: flag(words, 2),
        stream: flag(words, 4),
        input_conv: flag(words, 8),
        fastresend: words[FASTRESEND],
        fastlimit: words[FASTLIMIT],
        dead_link: words[DEAD_LINK],
    }
}

// The clock in words.
fn clock(words: &[u32]) -> Clock
    requires { length words.now ≡ 35 }
    ensures { result ≡ clock_of words.now }
{
    Clock {
        current: words[CURRENT],
        interval: words[INTERVAL],
        ts_flush: words[TS_FLUSH],
        updated: flag(words, 16),
    }
}

// The estimator in words.
fn estimator(words: &[u32]) -> Estimator
    requires { length words.now ≡ 35 }
    ensures { result ≡ estimator_of words.now }
{
    Estimator {
        srtt: words[SRTT],
        rttval: words[RTTVAL],
        rto: words[RTO],
        minrto: words[MINRTO],
    }
}

// The windows of the sending side in words.
fn congestion(words: &[u32]) -> Congestion
    requires { length words.now ≡ 35 }
    ensures { result ≡ congestion_of words.now }
{
    Congestion {
        snd_wnd: low(words, SND_WINDOWS),
        rmt_wnd: high(words, SND_WINDOWS),
        cwnd: low(words, CWND),
        ssthresh: high(words, CWND),
        incr: u64::from(words[INCR_LOW]) + u64::from(words[INCR_HIGH]) * LONG,
    }
}

// The probe in words.
fn probe(words: &[u32]) -> Probe
    requires { length words.now ≡ 35 }
    ensures { result ≡ probe_of words.now }
{
    Probe {
        bits: words[PROBE_BITS],
        ts_probe: words[TS_PROBE],
        probe_wait: words[PROBE_WAIT],
    }
}

// The numbers of the receiving side in words.
fn receiver(words: &[u32]) -> Receiver
    requires { length words.now ≡ 35 }
    ensures { result ≡ receiver_of words.now }
{
    Receiver {
        rcv_nxt: words[RCV_NXT],
        rcv_wnd: low(words, RCV_WINDOWS),
        largest: high(words, RCV_WINDOWS),
        ring: RcvRing {
            start: words[RCV_START],
            queued: words[RCV_QUEUED],
            reach: words[RCV_REACH],
        },
    }
}

// How much of the ack memory is in use, in words.
fn acklist(words: &[u32]) -> AckList
    requires { length words.now ≡ 35 }
    ensures { result ≡ acklist_of words.now }
{
    AckList {
        acks: words[ACKS],
        waiting: words[WAITING],
    }
}

// The numbers of the sending side in words.
fn sender(words: &[u32]) -> Sender
    requires { length words.now ≡ 35 }
    ensures { result ≡ sender_of words.now }
{
    Sender {
        snd_una: words[SND_UNA],
        snd_nxt: words[SND_NXT],
        ring: SndRing {
            start: words[SND_START],
            reach: words[SND_REACH],
            flying: words[FLYING],
            unsent: words[UNSENT],
        },
        xmit: words[XMIT],
        dead: flag(words, 32),
    }
}

// The block in words.
#[tactic(auto, unfolding(crate::specs::Words::block_of))]
pub fn block(words: &[u32]) -> Kcp
    requires { length words.now ≡ 35 }
    ensures { result ≡ block_of words.now }
{
    Kcp {
        settings: settings(words),
        clock: clock(words),
        estimator: estimator(words),
        congestion: congestion(words),
        probe: probe(words),
        receiver: receiver(words),
        acklist: acklist(words),
        sender: sender(words),
    }
}

// The block in words, where they are those of a block. Inlined, so that the block is read out of the words there and never laid out in memory.
#[inline(always)]
#[tactic(auto, using(crate::proofs::Tests::block_length))]
pub fn block_in(words: &[u32]) -> Option<Kcp>
    ensures { MatchOption result (is_block words.now ≡ false) (λ k. (is_block words.now ≡ true) × (k ≡ block_of words.now)) }
{
    if is_block(words) {
        Some(block(words))
    } else {
        None
    }
}

// The flags of a block in a word.
fn flags_of(block: Kcp) -> u32
    ensures { result ≡ flags_of block }
{
    u32::from(block.settings.nodelay)
        + (2 * u32::from(block.settings.nocwnd)
            + (4 * u32::from(block.settings.stream)
                + (8 * u32::from(block.settings.input_conv)
                    + (16 * u32::from(block.clock.updated) + 32 * u32::from(block.sender.dead)))))
}

// Two numbers of 16 bits in a word.
fn pair(low: u16, high: u16) -> u32
    ensures { result ≡ pair low high }
{
    u32::from(low) + u32::from(high) * SHORT
}

// The words of a block.
#[tactic(auto, unfolding(crate::specs::Words::words_of))]
fn words_of(block: Kcp) -> [u32; 35]
    ensures { result ≡ words_of block }
{
    let rcv = block.receiver.ring;
    let snd = block.sender.ring;
    [
        flags_of(block),
        block.settings.mtu,
        block.settings.mss,
        block.probe.probe_wait,
        block.receiver.rcv_nxt,
        pair(block.receiver.rcv_wnd, block.receiver.largest),
        rcv.start,
        rcv.queued,
        rcv.reach,
        snd.start,
        snd.reach,
        snd.flying,
        snd.unsent,
        block.acklist.acks,
        block.acklist.waiting,
        block.probe.bits,
        block.settings.conv,
        block.sender.snd_una,
        block.sender.snd_nxt,
        pair(block.congestion.snd_wnd, block.congestion.rmt_wnd),
        pair(block.congestion.cwnd, block.congestion.ssthresh),
        (block.congestion.incr % LONG) as u32,
        (block.congestion.incr / LONG) as u32,
        block.estimator.srtt,
        block.estimator.rttval,
        block.estimator.rto,
        block.estimator.minrto,
        block.clock.current,
        block.clock.interval,
        block.clock.ts_flush,
        block.probe.ts_probe,
        block.sender.xmit,
        block.settings.fastresend,
        block.settings.fastlimit,
        block.settings.dead_link,
    ]
}

// Writes all words of a block. One by one: by copy_from_slice, a call behind a test for overlap, the block and its words are laid out in memory first, and
// kcp_input takes 25 ns longer, kcp_new three times as long.
pub fn write(block: Kcp, words: &mut [u32])
    requires { length words.old ≡ 35 }
    ensures { words.new ≡ words_of block }
{
    let all = words_of(block);
    for (i, word) in words.iter_mut().enumerate() {
        *word = all[i];
    }
}

// Writes the flags.
#[tactic(auto, unfolding(crate::specs::Words::with_flags))]
pub fn put_flags(block: Kcp, words: &mut [u32])
    requires { length words.old ≡ 35 }
    ensures { words.new ≡ with_flags block words.old }
{
    words[FLAGS] = flags_of(block);
}

// Writes what set_nodelay sets: the flags, rx_minrto, the interval and fastresend.
#[tactic(auto, unfolding(crate::specs::Words::with_nodelay_words))]
pub fn put_nodelay(block: Kcp, words: &mut [u32])
    requires { length words.old ≡ 35 }
    ensures { words.new ≡ with_nodelay_words block words.old }
{
    words[FLAGS] = flags_of(block);
    words[MINRTO] = block.estimator.minrto;
    words[INTERVAL] = block.clock.interval;
    words[FASTRESEND] = block.settings.fastresend;
}

// Writes mtu and mss.
#[tactic(auto, unfolding(crate::specs::Words::with_mtu_words))]
pub fn put_mtu(settings: Settings, words: &mut [u32])
    requires { length words.old ≡ 35 }
    ensures { words.new ≡ with_mtu_words settings words.old }
{
    words[MTU] = settings.mtu;
    words[MSS] = settings.mss;
}

// Writes rcv_nxt and the receive ring.
#[tactic(auto, unfolding(crate::specs::Words::with_rcv_words))]
pub fn put_receiver(receiver: Receiver, words: &mut [u32])
    requires { length words.old ≡ 35 }
    ensures { words.new ≡ with_rcv_words receiver words.old }
{
    let ring = receiver.ring;
    words[RCV_NXT] = receiver.rcv_nxt;
    words[RCV_START] = ring.start;
    words[RCV_QUEUED] = ring.queued;
    words[RCV_REACH] = ring.reach;
}

// Writes the send ring.
#[tactic(auto, unfolding(crate::specs::Words::with_snd_words))]
pub fn put_snd_ring(ring: SndRing, words: &mut [u32])
    requires { length words.old ≡ 35 }
    ensures { words.new ≡ with_snd_words ring words.old }
{
    words[SND_START] = ring.start;
    words[SND_REACH] = ring.reach;
    words[FLYING] = ring.flying;
    words[UNSENT] = ring.unsent;
}

// Writes both windows, the largest receive window, and the peer's window, which shares a word with the send window.
#[tactic(auto, unfolding(crate::specs::Words::with_windows))]
pub fn put_windows(block: Kcp, words: &mut [u32])
    requires { length words.old ≡ 35 }
    ensures { words.new ≡ with_windows block words.old }
{
    words[RCV_WINDOWS] = pair(block.receiver.rcv_wnd, block.receiver.largest);
    words[SND_WINDOWS] = pair(block.congestion.snd_wnd, block.congestion.rmt_wnd);
}

// Writes the probe, the window of congestion, and the clock without its interval.
#[tactic(auto, unfolding(crate::specs::Words::with_probe_words))]
fn put_probe(probe: Probe, words: &mut [u32])
    requires { length words.old ≡ 35 }
    ensures { words.new ≡ with_probe_words probe words.old }
{
    words[PROBE_WAIT] = probe.probe_wait;
    words[PROBE_BITS] = probe.bits;
    words[TS_PROBE] = probe.ts_probe;
}

#[tactic(auto, unfolding(crate::specs::Words::with_cwnd_words))]
fn put_cwnd(congestion: Congestion, words: &mut [u32])
    requires { length words.old ≡ 35 }
    ensures { words.new ≡ with_cwnd_words congestion words.old }
{
    words[CWND] = pair(congestion.cwnd, congestion.ssthresh);
    words[INCR_LOW] = (congestion.incr % LONG) as u32;
    words[INCR_HIGH] = (congestion.incr / LONG) as u32;
}

#[tactic(auto, unfolding(crate::specs::Words::with_clock_words))]
fn put_clock(clock: Clock, words: &mut [u32])
    requires { length words.old ≡ 35 }
    ensures { words.new ≡ with_clock_words clock words.old }
{
    words[CURRENT] = clock.current;
    words[TS_FLUSH] = clock.ts_flush;
}

// Writes the ack memory in use, snd_nxt and xmit.
#[tactic(auto, unfolding(crate::specs::Words::with_count_words))]
fn put_counts(block: Kcp, words: &mut [u32])
    requires { length words.old ≡ 35 }
    ensures { words.new ≡ with_count_words block words.old }
{
    words[ACKS] = block.acklist.acks;
    words[WAITING] = block.acklist.waiting;
    words[SND_NXT] = block.sender.snd_nxt;
    words[XMIT] = block.sender.xmit;
}

// Writes what flush and update change where nothing goes out.
pub fn put_turned(block: Kcp, words: &mut [u32])
    requires { length words.old ≡ 35 }
    ensures { words.new ≡ with_turn_words block words.old }
{
    put_flags(block, words);
    put_probe(block.probe, words);
    put_cwnd(block.congestion, words);
    put_clock(block.clock, words);
}

// Writes what they change where something does.
pub fn put_sent(block: Kcp, words: &mut [u32])
    requires { length words.old ≡ 35 }
    ensures { words.new ≡ with_sent_words block words.old }
{
    put_turned(block, words);
    put_counts(block, words);
    put_snd_ring(block.sender.ring, words);
}

// Writes one word.
pub fn put_word(words: &mut [u32], place: usize, x: u32)
    requires words_len { length words.old ≡ 35 }
    requires place_in { place < 35 }
    ensures { words.new ≡ set words.old place x }
{
    words[place] = x;
}

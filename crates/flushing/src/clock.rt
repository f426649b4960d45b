// What update does to the clock, and the wait that check answers.
ghost use Rattle.std.specs.Prelude.{◌≡◌};
ghost use Rattle.flushing.specs.Clocks.{far, restarted, due_from, next_flush, ticked, tm_flush, nearest, wait_of};

use block::clock::Clock;

// The clock after an update, and whether a flush runs.
#[derive(Clone, Copy)]
pub struct Tick {
    pub clock: Clock,
    pub flushes: bool,
}

// The most that the time may lie off the next flush: exactly so much before it is not far, and exactly so much past it is.
const FAR: u32 = 10_000;

// Whether the time lies 10,000 or more past the next flush, or more than that before it, by an unsigned test.
fn far(current: u32, ts_flush: u32) -> bool
    ensures { result ≡ far current ts_flush }
{
    let past = current.wrapping_sub(ts_flush);
    FAR <= past && past <= u32::MAX - FAR
}

// The next flush, or now where it is far.
#[tactic(auto, unfolding(crate::specs::Clocks::restarted, serial::specs::Branch::pick))]
fn restarted(current: u32, ts_flush: u32) -> u32
    ensures { result ≡ restarted current ts_flush }
{
    if far(current, ts_flush) {
        current
    } else {
        ts_flush
    }
}

// Since when a flush is due: now, if this is the first update.
#[tactic(auto, unfolding(crate::specs::Clocks::due_from, serial::specs::Branch::pick))]
fn due_from(clock: Clock, current: u32) -> u32
    ensures { result ≡ due_from clock current }
{
    let due = if clock.updated {
        clock.ts_flush
    } else {
        current
    };
    restarted(current, due)
}

// The flush behind one that runs now: an interval later than that was due, or than now, if that is past.
#[tactic(auto, unfolding(crate::specs::Clocks::next_flush, serial::specs::Branch::pick))]
fn next_flush(current: u32, interval: u32, ts_flush: u32) -> u32
    ensures { result ≡ next_flush current interval ts_flush }
{
    let next = ts_flush.wrapping_add(interval);
    if serial::not_before(current, next) {
        return current.wrapping_add(interval);
    }
    next
}

// The clock of an update, and whether a flush runs.
#[tactic(auto, unfolding(crate::specs::Clocks::ticked, serial::specs::Branch::pick))]
pub fn ticked(clock: Clock, current: u32) -> Tick
    ensures { result ≡ ticked clock current }
{
    let from = due_from(clock, current);
    let flushes = serial::not_before(current, from);
    let ts_flush = if flushes {
        next_flush(current, clock.interval, from)
    } else {
        from
    };
    Tick {
        clock: Clock {
            current,
            ts_flush,
            updated: true,
            ..clock
        },
        flushes,
    }
}

// The wait for the next flush: none before the first update, and where one is due.
#[tactic(auto, unfolding(crate::specs::Clocks::tm_flush, serial::specs::Branch::pick))]
pub fn tm_flush(clock: Clock, current: u32) -> u32
    ensures { result ≡ tm_flush clock current }
{
    if clock.updated {
        let from = restarted(current, clock.ts_flush);
        if serial::not_before(current, from) {
            return 0;
        }
        return from.wrapping_sub(current);
    }
    0
}

// The wait for the segments, with one more: none where it is due.
#[tactic(auto, unfolding(crate::specs::Clocks::nearest, serial::specs::Branch::pick))]
pub fn nearest(current: u32, resendts: u32, tm_packet: u32) -> u32
    ensures { result ≡ nearest current resendts tm_packet }
{
    if serial::after(resendts, current) {
        return resendts.wrapping_sub(current).min(tm_packet);
    }
    0
}

// The wait of check: for the segments or the flush, at most an interval.
pub fn wait_of(interval: u32, tm_packet: u32, tm_flush: u32) -> u32
    ensures { result ≡ wait_of interval tm_packet tm_flush }
{
    tm_packet.min(tm_flush).min(interval)
}

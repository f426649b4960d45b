// The tests of lent sizes. Each side is lent records, a fixed count of numbers for each slot, and room for payloads.
ghost use Rattle.std.specs.Prelude.{◌≡◌, ◌≤◌};
ghost use Rattle.block.specs.Sizes.{within, ring_sizes, receive_sizes, send_sizes, ack_sizes};

use crate::Kcp;

// Whether x lies from `least` to `most`.
pub fn within(least: usize, x: usize, most: usize) -> bool
    ensures { result ≡ within least x most }
{
    (least..=most).contains(&x)
}

// Whether these are the lengths of a ring's memory, of `least` to 1,024 slots.
fn ring_sizes(least: usize, slots: usize, width: usize, records: usize, room: usize) -> bool
    requires { width ≤ 9 }
    ensures { result ≡ ring_sizes least 1024 slots width records room }
{
    within(least, slots, Kcp::SLOTS_MOST) && records == width * slots && room == Kcp::ROOM * slots
}

// Whether these are the lengths of a receive ring's memory within the limits.
pub fn receive_sizes(records: usize, room: usize) -> bool
    ensures { result ≡ receive_sizes records room }
{
    ring_sizes(Kcp::RCV_LEAST, records, Kcp::RCV_RECORD, records, room)
}

// Whether these are the lengths of a send ring's memory within the limits.
pub fn send_sizes(records: usize, room: usize) -> bool
    ensures { result ≡ send_sizes records room }
{
    ring_sizes(
        Kcp::SND_LEAST,
        records / Kcp::SND_RECORD,
        Kcp::SND_RECORD,
        records,
        room,
    )
}

// Whether these are the lengths of an ack memory within the limits: whole pairs, and the bytes that may wait.
pub fn ack_sizes(acks: usize, waiting: usize) -> bool
    ensures { result ≡ ack_sizes acks waiting }
{
    let pairs = acks / Kcp::ACK_PAIR;
    within(Kcp::ACKS_LEAST, pairs, Kcp::ACKS_MOST)
        && acks == Kcp::ACK_PAIR * pairs
        && waiting == Kcp::WAITING
}

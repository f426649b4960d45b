// flush_ack, flush, update and check of a block that a host keeps as words. Datagrams lie end to end in `out`, and their lengths in `lengths`; what lies
// past those written stays. Words that are no block are refused by 15, which leaves all.
ghost use Rattle.ring.specs.Lists.{lists};
ghost use Rattle.snd_ring.specs.Store.{store_of};
ghost use Rattle.packing.specs.FlushAck.{writing};
ghost use Rattle.kcp_flush.specs.Calls.{flush_ack_of, flush_of, update_of};
ghost use Rattle.host_flush.specs.Words.{WordsOut, WordsFlushed, WordsChecked};

// Puts the acks out, and how many datagrams that was into `datagrams`; the last bytes stay waiting. 0, or 9, 13 or 15, which leave all.
#[unsafe(no_mangle)]
pub extern "C" fn kcp_flush_ack(
    words: &mut [u32],
    acks: &[u32],
    waiting: &mut [u8],
    out: &mut [u8],
    lengths: &mut [u16],
    datagrams: &mut usize,
) -> u32
    ensures { WordsOut (λ k. flush_ack_of k acks.now (writing waiting.old out.old lengths.old)) (writing waiting.old out.old lengths.old) words.old datagrams.old
        (record { number = result; datagrams = datagrams.new; words = words.new; written = writing waiting.new out.new lengths.new }) }
{
    host_flush::flush_ack(words, acks, waiting, out, lengths, datagrams)
}

// Puts all out that waits or is due, and how many datagrams that was into `datagrams`. 0, or 9, 13 or 15, which leave all.
#[unsafe(no_mangle)]
pub extern "C" fn kcp_flush(
    words: &mut [u32],
    records: &mut [u32],
    room: &[u8],
    acks: &[u32],
    waiting: &[u8],
    out: &mut [u8],
    lengths: &mut [u16],
    datagrams: &mut usize,
) -> u32
    ensures { WordsFlushed (λ k. flush_of k (lists records.old room.now) acks.now (writing waiting.now out.old lengths.old)) (lists records.old room.now) (writing waiting.now out.old lengths.old) words.old datagrams.old
        (record { number = result; datagrams = datagrams.new; words = words.new; written = writing waiting.now out.new lengths.new }) (store_of 8 (lists records.new room.now)) }
{
    host_flush::flush(words, records, room, acks, waiting, out, lengths, datagrams)
}

// Sets the clock, and flushes where a flush is due. 0, or 13 or 15, which leave all, the clock too.
#[unsafe(no_mangle)]
pub extern "C" fn kcp_update(
    words: &mut [u32],
    current: u32,
    records: &mut [u32],
    room: &[u8],
    acks: &[u32],
    waiting: &[u8],
    out: &mut [u8],
    lengths: &mut [u16],
    datagrams: &mut usize,
) -> u32
    ensures { WordsFlushed (λ k. update_of k (lists records.old room.now) acks.now (writing waiting.now out.old lengths.old) current) (lists records.old room.now) (writing waiting.now out.old lengths.old) words.old datagrams.old
        (record { number = result; datagrams = datagrams.new; words = words.new; written = writing waiting.now out.new lengths.new }) (store_of 8 (lists records.new room.now)) }
{
    host_flush::update(
        words, current, records, room, acks, waiting, out, lengths, datagrams,
    )
}

// How long until the next update, in milliseconds, put into `wait`. 0, or 15, which leaves it.
#[unsafe(no_mangle)]
pub extern "C" fn kcp_check(
    words: &[u32],
    current: u32,
    records: &[u32],
    room: &[u8],
    wait: &mut u32,
) -> u32
    ensures { WordsChecked (lists records.now room.now) current words.now wait.old result wait.new }
{
    host_flush::check(words, current, records, room, wait)
}

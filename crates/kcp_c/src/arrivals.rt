// One datagram into a block that a host keeps as words. Words that are no block are refused by 15, which leaves all.
ghost use Rattle.ring.specs.Lists.{lists};
ghost use Rattle.snd_ring.specs.Store.{store_of};
ghost use Rattle.host_input.specs.Words.{WordsRead};

// One datagram. 0, and then `values` are the bytes consumed and 0; or 15, 11 or 1, which leave all, or 2, 3 or 4, which leave what the segments
// before the refused one did, and after 3 and 4 the conv adopted, and then they are what goes with the refusal. `skipped` gets how many pushes
// were skipped.
#[unsafe(no_mangle)]
pub extern "C" fn kcp_input(
    words: &mut [u32],
    rcv_records: &mut [u32],
    rcv_room: &mut [u8],
    snd_records: &mut [u32],
    snd_room: &[u8],
    acks: &mut [u32],
    waiting: &[u8],
    datagram: &[u8],
    values: &mut [usize; 2],
    skipped: &mut u32,
) -> u32
    ensures { WordsRead (lists rcv_records.old rcv_room.old) acks.old waiting.now (lists snd_records.old snd_room.now) datagram.now words.old
        (record { number = result; values = values.new; skipped = skipped.new; words = words.new; rcv = lists rcv_records.new rcv_room.new; acks = acks.new; snd = store_of 8 (lists snd_records.new snd_room.now) }) }
{
    host_input::input(
        words,
        rcv_records,
        rcv_room,
        snd_records,
        snd_room,
        acks,
        waiting,
        datagram,
        values,
        skipped,
    )
}

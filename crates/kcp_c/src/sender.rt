// The calls that are handed the send memory, over a block that a host keeps as words. Words that are no block are refused by 15, which
// leaves all.
ghost use Rattle.std.specs.Prelude.{◌≡◌};
ghost use Rattle.ring.specs.Lists.{lists};
ghost use Rattle.snd_ring.specs.Store.{store_of};
ghost use Rattle.transmit.specs.Fits.{send_fits};
ghost use Rattle.kcp_c.specs.Tests.{tested};
ghost use Rattle.host_send.specs.Words.{WordsSent};

// Queues the bytes, and puts their count into `queued`. 0, or 8, 12 or 15, which leave it.
#[unsafe(no_mangle)]
pub extern "C" fn kcp_send(
    words: &mut [u32],
    records: &mut [u32],
    room: &mut [u8],
    bytes: &[u8],
    queued: &mut usize,
) -> u32
    ensures { WordsSent (lists records.old room.old) bytes.now words.old queued.old result
        (store_of 8 (lists records.new room.new)) words.new queued.new }
{
    host_send::send(words, records, room, bytes, queued)
}

// Whether block and send memory are well formed: 0, or 15.
#[unsafe(no_mangle)]
pub extern "C" fn kcp_send_test(words: &[u32], records: &[u32], room: &[u8]) -> u32
    ensures { result ≡ tested (λ k. send_fits k (lists records.now room.now)) words.now }
{
    let Some(block) = words::block_in(words) else {
        return words::NO_BLOCK;
    };
    if transmit::fits(block.own_numbers(), block.sender, records, room) {
        words::DONE
    } else {
        words::NO_BLOCK
    }
}

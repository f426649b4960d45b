// The calls that are handed the receive memory, over a block that a host keeps as words. Words that are no block are refused by 15, which
// leaves all.
ghost use Rattle.std.specs.Prelude.{◌≡◌};
ghost use Rattle.ring.specs.Lists.{lists};
ghost use Rattle.receive.specs.Fits.{receive_fits};
ghost use Rattle.kcp_c.specs.Tests.{tested};
ghost use Rattle.kcp_receive.specs.Calls.{move_buf_of, set_wndsize_of};
ghost use Rattle.host_receive.specs.Words.{Called, WordsPeeked, WordsReceived};

// Moves held segments to the queue. 0, or 15.
#[unsafe(no_mangle)]
pub extern "C" fn kcp_move_buf(words: &mut [u32], records: &[u32], room: &[u8]) -> u32
    ensures { Called (λ k. move_buf_of k (lists records.now room.now)) words.old result words.new }
{
    host_receive::move_buf(words, records, room)
}

// Sets both windows. 0, or 14 or 15.
#[unsafe(no_mangle)]
pub extern "C" fn kcp_set_wndsize(
    words: &mut [u32],
    sndwnd: u16,
    rcvwnd: u16,
    records: &[u32],
    room: &[u8],
) -> u32
    ensures { Called (λ k. set_wndsize_of k (lists records.now room.now) sndwnd rcvwnd) words.old result words.new }
{
    host_receive::set_wndsize(words, sndwnd, rcvwnd, records, room)
}

// The length of the message at the front of the queue, put into `length`. 0, or 5, 6 or 15, which leave it.
#[unsafe(no_mangle)]
pub extern "C" fn kcp_peeksize(
    words: &[u32],
    records: &[u32],
    room: &[u8],
    length: &mut usize,
) -> u32
    ensures { WordsPeeked (lists records.now room.now) words.now length.old result length.new }
{
    host_receive::peeksize(words, records, room, length)
}

// Hands the message at the front of the queue out into `buf`, and puts its length into `length`. 0, or 5, 6, 7 or 15, which leave all.
#[unsafe(no_mangle)]
pub extern "C" fn kcp_recv(
    words: &mut [u32],
    records: &[u32],
    room: &[u8],
    buf: &mut [u8],
    length: &mut usize,
) -> u32
    ensures { WordsReceived (lists records.now room.now) buf.old words.old length.old result buf.new words.new length.new }
{
    host_receive::recv(words, records, room, buf, length)
}

// Whether block and receive memory are well formed: 0, or 15.
#[unsafe(no_mangle)]
pub extern "C" fn kcp_receive_test(words: &[u32], records: &[u32], room: &[u8]) -> u32
    ensures { result ≡ tested (λ k. receive_fits k (lists records.now room.now)) words.now }
{
    let Some(block) = words::block_in(words) else {
        return words::NO_BLOCK;
    };
    if receive::fits(block.own_numbers(), block.receiver, records, room) {
        words::DONE
    } else {
        words::NO_BLOCK
    }
}

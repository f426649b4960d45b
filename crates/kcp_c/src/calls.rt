// The calls over a block that a host keeps as words. Words that are no block are refused by 15, which leaves all.
ghost use Rattle.std.specs.Prelude.{◌≡◌};
ghost use Rattle.serial.specs.Branch.{pick};
ghost use Rattle.block.specs.Sizes.{mtu_size};
ghost use Rattle.ring.specs.Lists.{lists};
ghost use Rattle.block.specs.Fresh.{fresh_plain, fresh_stream};
ghost use Rattle.block.specs.Setters.{set_mtu, set_interval, set_nodelay, set_rx_minrto, set_fast_resend, set_maximum_resend_times, input_conv, set_conv};
ghost use Rattle.host.specs.Words.{WordsSet, WordsMade};

// A fresh block that keeps messages apart. 0, or 15 where there are not thirty-five words or a lent size is outside the limits.
#[unsafe(no_mangle)]
pub extern "C" fn kcp_new(
    words: &mut [u32],
    conv: u32,
    rcv_records: &[u32],
    rcv_room: &[u8],
    snd_records: &[u32],
    snd_room: &[u8],
    acks: &[u32],
    waiting: &[u8],
) -> u32
    ensures { WordsMade (record { rcv = lists rcv_records.now rcv_room.now; snd = lists snd_records.now snd_room.now; acks = acks.now; waiting = waiting.now }) (fresh_plain conv) words.old result words.new }
{
    host::make::new(
        words,
        conv,
        rcv_records,
        rcv_room,
        snd_records,
        snd_room,
        acks,
        waiting,
    )
}

// The same of one that carries a stream of bytes.
#[unsafe(no_mangle)]
pub extern "C" fn kcp_new_stream(
    words: &mut [u32],
    conv: u32,
    rcv_records: &[u32],
    rcv_room: &[u8],
    snd_records: &[u32],
    snd_room: &[u8],
    acks: &[u32],
    waiting: &[u8],
) -> u32
    ensures { WordsMade (record { rcv = lists rcv_records.now rcv_room.now; snd = lists snd_records.now snd_room.now; acks = acks.now; waiting = waiting.now }) (fresh_stream conv) words.old result words.new }
{
    host::make::new_stream(
        words,
        conv,
        rcv_records,
        rcv_room,
        snd_records,
        snd_room,
        acks,
        waiting,
    )
}

// Sets the mtu, and mss with it. 0, or 10 under 50 or over 1,500, which leaves all, or 15.
#[unsafe(no_mangle)]
pub extern "C" fn kcp_set_mtu(words: &mut [u32], mtu: usize) -> u32
    ensures { WordsSet (λ k. (set_mtu k mtu).block) (pick (mtu_size mtu) 0 10) words.old result words.new }
{
    host::setters::set_mtu(words, mtu)
}

// Sets the interval, raised to 10 and cut to 5,000; the next flush stays. 0, or 15.
#[unsafe(no_mangle)]
pub extern "C" fn kcp_set_interval(words: &mut [u32], interval: u32) -> u32
    ensures { WordsSet (λ k. set_interval k interval) 0 words.old result words.new }
{
    host::setters::set_interval(words, interval)
}

// Sets nodelay with the least timeout, the interval, fastresend unless it is negative, and nocwnd. 0, or 15.
#[unsafe(no_mangle)]
pub extern "C" fn kcp_set_nodelay(
    words: &mut [u32],
    nodelay: bool,
    interval: i32,
    resend: i32,
    nc: bool,
) -> u32
    ensures { WordsSet (λ k. set_nodelay k nodelay interval resend nc) 0 words.old result words.new }
{
    host::setters::set_nodelay(words, nodelay, interval, resend, nc)
}

// Sets the least timeout. 0, or 15.
#[unsafe(no_mangle)]
pub extern "C" fn kcp_set_rx_minrto(words: &mut [u32], rto: u32) -> u32
    ensures { WordsSet (λ k. set_rx_minrto k rto) 0 words.old result words.new }
{
    host::setters::set_rx_minrto(words, rto)
}

// Sets how many acks of later segments have a segment resent. 0, or 15.
#[unsafe(no_mangle)]
pub extern "C" fn kcp_set_fast_resend(words: &mut [u32], fr: u32) -> u32
    ensures { WordsSet (λ k. set_fast_resend k fr) 0 words.old result words.new }
{
    host::setters::set_fast_resend(words, fr)
}

// Sets after how many transmissions of one segment the link is dead. 0, or 15.
#[unsafe(no_mangle)]
pub extern "C" fn kcp_set_maximum_resend_times(words: &mut [u32], dead_link: u32) -> u32
    ensures { WordsSet (λ k. set_maximum_resend_times k dead_link) 0 words.old result words.new }
{
    host::setters::set_maximum_resend_times(words, dead_link)
}

// Has the next input's conv adopted. 0, or 15.
#[unsafe(no_mangle)]
pub extern "C" fn kcp_input_conv(words: &mut [u32]) -> u32
    ensures { WordsSet (λ k. input_conv k) 0 words.old result words.new }
{
    host::setters::input_conv(words)
}

// Sets the conversation. 0, or 15.
#[unsafe(no_mangle)]
pub extern "C" fn kcp_set_block_conv(words: &mut [u32], conv: u32) -> u32
    ensures { WordsSet (λ k. set_conv k conv) 0 words.old result words.new }
{
    host::setters::set_conv(words, conv)
}

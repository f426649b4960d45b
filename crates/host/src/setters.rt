// The setters of a block that a host keeps as words. Words that are no block are refused by 15, which leaves all. Each writes the words that it may change: two
// lines of its own, which closures handed to one function would make no plainer.
ghost use Rattle.std.specs.Prelude.{◌≡◌};
ghost use Rattle.serial.specs.Branch.{pick};
ghost use Rattle.block.specs.Sizes.{mtu_size};
ghost use Rattle.block.specs.Setters.{set_mtu, set_interval, set_nodelay, set_rx_minrto, set_fast_resend, set_maximum_resend_times, input_conv, set_conv};
ghost use Rattle.host.specs.Words.{WordsSet};

use block::refusal::number_of;

// Sets the mtu, and mss with it. 0, or 10 under 50 or over 1,500, which leaves all, or 15.
pub fn set_mtu(words: &mut [u32], mtu: usize) -> u32
    ensures { WordsSet (λ k. (set_mtu k mtu).block) (pick (mtu_size mtu) 0 10) words.old result words.new }
{
    let Some(block) = words::block_in(words) else {
        return words::NO_BLOCK;
    };
    let set = block.set_mtu(mtu);
    words::put_mtu(set.block.settings, words);
    number_of(set.answer)
}

// Sets the interval, raised to 10 and cut to 5,000; the next flush stays. 0, or 15.
pub fn set_interval(words: &mut [u32], interval: u32) -> u32
    ensures { WordsSet (λ k. set_interval k interval) 0 words.old result words.new }
{
    let Some(block) = words::block_in(words) else {
        return words::NO_BLOCK;
    };
    let after = block.set_interval(interval);
    words::put_word(words, words::INTERVAL, after.clock.interval);
    words::DONE
}

// Sets nodelay with the least timeout, the interval, fastresend unless it is negative, and nocwnd. 0, or 15.
pub fn set_nodelay(words: &mut [u32], nodelay: bool, interval: i32, resend: i32, nc: bool) -> u32
    ensures { WordsSet (λ k. set_nodelay k nodelay interval resend nc) 0 words.old result words.new }
{
    let Some(block) = words::block_in(words) else {
        return words::NO_BLOCK;
    };
    let after = block.set_nodelay(nodelay, interval, resend, nc);
    words::put_nodelay(after, words);
    words::DONE
}

// Sets the least timeout. 0, or 15.
pub fn set_rx_minrto(words: &mut [u32], rto: u32) -> u32
    ensures { WordsSet (λ k. set_rx_minrto k rto) 0 words.old result words.new }
{
    let Some(block) = words::block_in(words) else {
        return words::NO_BLOCK;
    };
    let after = block.set_rx_minrto(rto);
    words::put_word(words, words::MINRTO, after.estimator.minrto);
    words::DONE
}

// Sets how many acks of later segments have a segment resent. 0, or 15.
pub fn set_fast_resend(words: &mut [u32], fr: u32) -> u32
    ensures { WordsSet (λ k. set_fast_resend k fr) 0 words.old result words.new }
{
    let Some(block) = words::block_in(words) else {
        return words::NO_BLOCK;
    };
    let after = block.set_fast_resend(fr);
    words::put_word(words, words::FASTRESEND, after.settings.fastresend);
    words::DONE
}

// Sets after how many transmissions of one segment the link is dead. 0, or 15.
pub fn set_maximum_resend_times(words: &mut [u32], dead_link: u32) -> u32
    ensures { WordsSet (λ k. set_maximum_resend_times k dead_link) 0 words.old result words.new }
{
    let Some(block) = words::block_in(words) else {
        return words::NO_BLOCK;
    };
    let after = block.set_maximum_resend_times(dead_link);
    words::put_word(words, words::DEAD_LINK, after.settings.dead_link);
    words::DONE
}

// Has the next input's conv adopted. 0, or 15.
pub fn input_conv(words: &mut [u32]) -> u32
    ensures { WordsSet (λ k. input_conv k) 0 words.old result words.new }
{
    let Some(block) = words::block_in(words) else {
        return words::NO_BLOCK;
    };
    let after = block.input_conv();
    words::put_flags(after, words);
    words::DONE
}

// Sets the conversation. 0, or 15.
pub fn set_conv(words: &mut [u32], conv: u32) -> u32
    ensures { WordsSet (λ k. set_conv k conv) 0 words.old result words.new }
{
    let Some(block) = words::block_in(words) else {
        return words::NO_BLOCK;
    };
    let after = block.set_conv(conv);
    words::put_word(words, words::CONV, after.settings.conv);
    words::DONE
}

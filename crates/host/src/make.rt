// The constructors of a block that a host keeps as thirty-five words: 0, or 15 where there are not thirty-five words or a lent size is outside the limits,
// which leaves all. The lent memory is looked at only.
ghost use Rattle.std.specs.Prelude.{◌≡◌};
ghost use Rattle.ring.specs.Lists.{lists};
ghost use Rattle.block.specs.declared.Kcp.{Kcp};
ghost use Rattle.block.specs.Fresh.{fresh_plain, fresh_stream, Lent, Makes};
ghost use Rattle.host.specs.Words.{WordsMade};

use block::Kcp;
use block::refusal::Refusal;

// Writes the block that a constructor made.
fn put_made(words: &mut [u32], made: Result<Kcp, Refusal>) -> u32
    ensures { (m : Lent) (k : Kcp) → Makes m k made → WordsMade m k words.old result words.new }
{
    if words.len() != words::WORDS {
        return words::NO_BLOCK;
    }
    let Ok(block) = made else {
        return words::NO_BLOCK;
    };
    words::write(block, words);
    words::DONE
}

// A fresh block that keeps messages apart.
pub fn new(
    words: &mut [u32],
    conv: u32,
    rcv_records: &[u32],
    rcv_room: &[u8],
    snd_records: &[u32],
    snd_room: &[u8],
    acks: &[u32],
    waiting: &[u8],
) -> u32
    ensures { WordsMade (record { rcv = lists rcv_records.now rcv_room.now; snd = lists snd_records.now snd_room.now; acks = acks.now; waiting = waiting.now }) (fresh_plain conv) words.old result words.new }
{
    let made = Kcp::new(
        conv,
        rcv_records,
        rcv_room,
        snd_records,
        snd_room,
        acks,
        waiting,
    );
    put_made(words, made)
}

// A fresh block that carries a stream of bytes.
pub fn new_stream(
    words: &mut [u32],
    conv: u32,
    rcv_records: &[u32],
    rcv_room: &[u8],
    snd_records: &[u32],
    snd_room: &[u8],
    acks: &[u32],
    waiting: &[u8],
) -> u32
    ensures { WordsMade (record { rcv = lists rcv_records.now rcv_room.now; snd = lists snd_records.now snd_room.now; acks = acks.now; waiting = waiting.now }) (fresh_stream conv) words.old result words.new }
{
    let made = Kcp::new_stream(
        conv,
        rcv_records,
        rcv_room,
        snd_records,
        snd_room,
        acks,
        waiting,
    );
    put_made(words, made)
}

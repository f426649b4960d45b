// Whether what the port answers and leaves is what the Rust answered and left, and the run over the recording.
ghost use Rattle.std.specs.Prelude.{◌≡◌, ◌<◌, ◌≤◌, length};
ghost use Rattle.ring.specs.Lists.{lists};
ghost use Rattle.recorded.specs.Memory.{lent_of, memory_of, Kept};
ghost use Rattle.replay.specs.Judge.{answer_of, held_in, numbers_of, same, agrees, counted, judged};

use block::Kcp;
use recorded::answers::{Answer, UNKNOWN};
use recorded::calls::make;
use recorded::looks::{Made, unplayed};
use recorded::memory::LentMemory;
use recorded::rows::{Row, WIDTH, row_at, whole};
use recorded::sums::sum_of;

// The least word of a segment.
const SEGMENT: u32 = 65536;

// How many segments are held, by the words of the ring: those in reach that are a segment's. A block or memory that is not well formed holds a number
// that no step of the recording has.
fn held_in(block: Kcp, records: &[u32], room: &[u8]) -> u32
    ensures { result ≡ held_in block (lists records.now room.now) }
{
    if !receive::fits(block.own_numbers(), block.receiver, records, room) {
        return UNKNOWN;
    }
    let ring = block.receiver.ring;
    let counts = ring::tally(
        records,
        ring.start as usize,
        ring.queued as usize,
        ring.reach as usize,
        SEGMENT,
        SEGMENT,
    );
    counts.low
}

// Every number of the block, under the Rust's names.
#[tactic(auto, unfolding(crate::specs::Judge::numbers_of))]
fn numbers(block: Kcp, held: u32) -> [u32; 39]
    ensures value { result ≡ numbers_of block held }
    ensures value_2 { 39 ≡ length result }
{
    [
        block.settings.conv,
        block.settings.mtu,
        block.settings.mss,
        u32::from(block.sender.dead),
        block.sender.snd_una,
        block.sender.snd_nxt,
        block.receiver.rcv_nxt,
        u32::from(block.congestion.ssthresh),
        block.estimator.rttval,
        block.estimator.srtt,
        block.estimator.rto,
        block.estimator.minrto,
        u32::from(block.congestion.snd_wnd),
        u32::from(block.receiver.rcv_wnd),
        u32::from(block.congestion.rmt_wnd),
        u32::from(block.congestion.cwnd),
        block.probe.bits,
        block.clock.current,
        block.clock.interval,
        block.clock.ts_flush,
        block.sender.xmit,
        u32::from(block.settings.nodelay),
        u32::from(block.clock.updated),
        block.probe.ts_probe,
        block.probe.probe_wait,
        block.settings.dead_link,
        (block.congestion.incr % (1 << 32)) as u32,
        (block.congestion.incr / (1 << 32)) as u32,
        block.settings.fastresend,
        block.settings.fastlimit,
        u32::from(block.settings.nocwnd),
        u32::from(block.settings.stream),
        u32::from(block.settings.input_conv),
        block.sender.ring.unsent,
        block.receiver.ring.queued,
        block.sender.ring.flying,
        held,
        block.acklist.acks,
        block.acklist.waiting,
    ]
}

// What the Rust answered.
fn answer_of(row: Row) -> Answer
    ensures { result ≡ answer_of row }
{
    Answer {
        refusal: row.refusal,
        first: row.first as usize,
        second: row.second as usize,
        sum: row.sum,
    }
}

// Whether the five numbers of the Rust's are these.
#[tactic(auto, unfolding(crate::specs::Judge::same))]
fn same(answer: Answer, numbers: u32, row: Row) -> bool
    ensures { result ≡ same answer numbers row }
{
    answer == answer_of(row) && numbers == row.numbers
}

// Whether a call answered and left what the step says.
fn agrees(made: Made, row: Row, lent: &LentMemory) -> bool
    ensures { result ≡ agrees made.answer made.block (lent_of lent.now).rcv row }
{
    let all = numbers(
        made.block,
        held_in(made.block, lent.rcv_records, lent.rcv_room),
    );
    same(made.answer, sum_of(&all), row)
}

// How many steps were made and how many agreed; the first that did not, counted from 1.
#[derive(Clone, Copy)]
pub struct Tally {
    pub steps: usize,
    pub agreed: usize,
    pub first: Option<usize>,
}

impl Tally {
    // After one step more. The first that did not agree stays.
    #[tactic(auto, unfolding(crate::specs::Judge::counted, serial::specs::Branch::pick))]
    fn with(self, agrees: bool) -> Tally
        requires steps_bound { self.steps < 18446744073709551615 }
        requires agreed_le_steps { self.agreed ≤ self.steps }
        ensures { result ≡ counted self agrees }
    {
        let steps = self.steps + 1;
        if agrees {
            let agreed = self.agreed + 1;
            return Tally {
                steps,
                agreed,
                ..self
            };
        }
        let first = self.first.or(Some(steps));
        Tally {
            steps,
            first,
            ..self
        }
    }
}

// Makes every step of the recording, from this block on, and judges each. A place and no iterator, since how long a step is stands in the step.
pub fn run(block: Kcp, recording: &[u8], lent: &mut LentMemory) -> Tally
    ensures value { result ≡ judged recording.now (memory_of block lent.old) }
    ensures kept { Kept lent.old lent.new }
{
    let mut made = unplayed(block);
    let mut tally = Tally {
        steps: 0,
        agreed: 0,
        first: None,
    };
    let mut at = 0;
    while whole(recording, at) {
        let row = row_at(recording, at);
        let from = at + WIDTH;
        let to = from + row.bytes as usize;
        made = make(made.block, row, &recording[from..to], lent);
        tally = tally.with(agrees(made, row, lent));
        at = to;
    }
    tally
}

// What a call answers, as the numbers of a step.
ghost use Rattle.std.specs.Prelude.{◌≡◌, ℕ};
ghost use Rattle.recorded.specs.Answers.{refused_by, unknown, answered, of_out, as_refusal};

use block::refusal::Refusal;
use wire::ShortHeader;

// The refusal's number or 0, its values or the number that is answered, and the sum of what comes out.
#[derive(Clone, Copy, PartialEq, Eq)]
pub struct Answer {
    pub refusal: u32,
    pub first: usize,
    pub second: usize,
    pub sum: u32,
}

// No refusal has this number, so that the answer to a call that cannot be made agrees with no step.
pub const UNKNOWN: u32 = 4294967295;

pub fn unknown() -> Answer
    ensures { result ≡ unknown }
{
    Answer {
        refusal: UNKNOWN,
        first: 0,
        second: 0,
        sum: 0,
    }
}

// What a call that is not refused answers, as a number.
pub trait Counted {
    ghost count_of: { Self → ℕ };

    fn count(self) -> usize
        ensures { result ≡ count_of self };
}

impl Counted for () {
    ghost count_of = { λ x. 0 };

    fn count(self) -> usize {
        0
    }
}

impl Counted for u32 {
    ghost count_of = { λ x. x };

    fn count(self) -> usize {
        self as usize
    }
}

impl Counted for usize {
    ghost count_of = { λ x. x };

    fn count(self) -> usize {
        self
    }
}

// A call that is refused.
#[tactic(auto, unfolding(crate::specs::Answers::refused_by))]
fn refused_by(why: Refusal, sum: u32) -> Answer
    ensures { result ≡ refused_by why sum }
{
    let values = why.values();
    Answer {
        refusal: why.number(),
        first: values.first,
        second: values.second,
        sum,
    }
}

// What a call answers, with the sum of what comes out.
pub fn answered<T: Counted>(answer: Result<T, Refusal>, sum: u32) -> Answer
    ensures { result ≡ answered T.count_of answer sum }
{
    match answer {
        Ok(x) => Answer {
            refusal: 0,
            first: x.count(),
            second: 0,
            sum,
        },
        Err(why) => refused_by(why, sum),
    }
}

// How many datagrams went out, the sum of their lengths and that of their bytes.
pub fn of_out(answer: Result<(), Refusal>, datagrams: usize, lengths: u32, sum: u32) -> Answer
    ensures { result ≡ of_out answer datagrams lengths sum }
{
    match answer {
        Ok(()) => Answer {
            refusal: 0,
            first: datagrams,
            second: lengths as usize,
            sum,
        },
        Err(why) => refused_by(why, sum),
    }
}

// What a header helper answers, as a call does.
pub fn as_refusal<T: Copy>(answer: Result<T, ShortHeader>) -> Result<T, Refusal>
    ensures { result ≡ as_refusal answer }
{
    Ok(answer?)
}

// The steps of the recording, as the head of oracle/driver/src/bin/sample.rs has them, and the calls that they name.
ghost use Rattle.std.specs.Prelude.{◌≡◌, ◌+◌, ◌≤◌, true, length};
ghost use Rattle.recorded.specs.Rows.{row_at, whole_at, Whole, call_of};

// The bytes of a step's eleven numbers.
pub const WIDTH: usize = 44;

// The call's code and arguments, how many bytes follow, and what the Rust answered and left.
#[derive(Clone, Copy)]
pub struct Row {
    pub code: u32,
    pub a: u32,
    pub b: u32,
    pub c: u32,
    pub d: u32,
    pub bytes: u32,
    pub refusal: u32,
    pub first: u32,
    pub second: u32,
    pub sum: u32,
    pub numbers: u32,
}

// A call that changes lent memory, or one that changes none.
#[derive(Clone, Copy)]
pub enum Call {
    Input,
    Send,
    FlushAck,
    Flush,
    Update,
    Look(Look),
}

// A call that changes no lent memory: a block made anew, what looks at lent memory, the setters, all getters at once, and the header helpers.
#[derive(Clone, Copy)]
pub enum Look {
    New,
    Recv,
    Peeksize,
    MoveBuf,
    SetWndsize,
    Check,
    SetMtu,
    SetInterval,
    SetNodelay,
    SetRxMinrto,
    SetFastResend,
    SetMaximumResendTimes,
    InputConv,
    SetConv,
    Get,
    GetConv,
    PutConv,
    GetSn,
}

impl Row {
    // The call that the code names, if it names one.
    #[tactic(auto, unfolding(crate::specs::Rows::call_of, serial::specs::Branch::pick))]
    pub fn call(self) -> Option<Call>
        ensures { result ≡ call_of self.code }
    {
        match self.code {
            0 => Some(Call::Input),
            1 => Some(Call::Send),
            2 => Some(Call::FlushAck),
            3 => Some(Call::Flush),
            4 => Some(Call::Update),
            5 => Some(Call::Look(Look::New)),
            6 => Some(Call::Look(Look::Recv)),
            7 => Some(Call::Look(Look::Peeksize)),
            8 => Some(Call::Look(Look::MoveBuf)),
            9 => Some(Call::Look(Look::SetWndsize)),
            10 => Some(Call::Look(Look::Check)),
            11 => Some(Call::Look(Look::SetMtu)),
            12 => Some(Call::Look(Look::SetInterval)),
            13 => Some(Call::Look(Look::SetNodelay)),
            14 => Some(Call::Look(Look::SetRxMinrto)),
            15 => Some(Call::Look(Look::SetFastResend)),
            16 => Some(Call::Look(Look::SetMaximumResendTimes)),
            17 => Some(Call::Look(Look::InputConv)),
            18 => Some(Call::Look(Look::SetConv)),
            19 => Some(Call::Look(Look::Get)),
            20 => Some(Call::Look(Look::GetConv)),
            21 => Some(Call::Look(Look::PutConv)),
            22 => Some(Call::Look(Look::GetSn)),
            _ => None,
        }
    }
}

// The eleven numbers at `at`.
#[tactic(auto, unfolding(crate::specs::Rows::row_at))]
pub fn row_at(s: &[u8], at: usize) -> Row
    requires { at + 44 ≤ length s.now }
    ensures { result ≡ row_at s.now at }
{
    Row {
        code: wire::word(s, at),
        a: wire::word(s, at + 4),
        b: wire::word(s, at + 8),
        c: wire::word(s, at + 12),
        d: wire::word(s, at + 16),
        bytes: wire::word(s, at + 20),
        refusal: wire::word(s, at + 24),
        first: wire::word(s, at + 28),
        second: wire::word(s, at + 32),
        sum: wire::word(s, at + 36),
        numbers: wire::word(s, at + 40),
    }
}

// Whether a whole step stands at `at`.
pub fn whole(s: &[u8], at: usize) -> bool
    requires { at ≤ length s.now }
    ensures value { result ≡ whole_at s.now at }
    ensures whole { result ≡ true → Whole s.now at }
{
    let left = s.len() - at;
    if left < WIDTH {
        return false;
    }
    let row = row_at(s, at);
    row.bytes as usize <= left - WIDTH
}

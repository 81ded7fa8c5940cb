// What a step is given and what it answers; and a step from plain numbers. The model of a step is in specs/, and `step` has the operation.
#![tactic(auto)]

mod numbers;

use board::Board;
pub use numbers::decode_step;
use refusal::Refusal;

// A step's kind with its plain arguments: addresses, ports (document 01: channels), offsets and values.
#[derive(Clone, Copy)]
pub enum Step {
    Fetch(u16),
    Read(u16),
    Write(u16, u8),
    PortIn(u8),
    PortOut(u8, u8),
    Scan,
    Key(u8, u8),
    DiscLine(bool),
    ExternalLine(bool),
}

// What an accepted step gives beside the record: a byte (0 where there is none), and whether the access is forwarded to the host
// (document 01: passed on).
#[derive(Clone, Copy)]
pub struct Outcome {
    pub byte: u8,
    pub forwarded: bool,
}

// What the firmware is told: the outcome or why there is none, and the INT and NMI lines.
#[derive(Clone, Copy)]
pub struct Reply {
    pub outcome: Result<Outcome, Refusal>,
    pub int: bool,
    pub nmi: bool,
}

#[derive(Clone, Copy)]
pub struct Answer {
    pub board: Board,
    pub reply: Reply,
}

// What a kind does before the lines are looked at: the record as it leaves it, and its outcome; or its refusal, with the record
// given. The record stands beside the result, as a `Result<Effect, Refusal>` takes 7 to 30 % more instructions a step.
#[derive(Clone, Copy)]
pub struct Effect {
    pub board: Board,
    pub outcome: Result<Outcome, Refusal>,
}

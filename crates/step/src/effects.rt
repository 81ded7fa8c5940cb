// What a kind gives. The record is copied by its fields, for speed (see `Board::by_fields`).
ghost use Rattle.std.specs.Prelude.{◌≡◌, Ok, Err};
ghost use Rattle.step_rules.specs.Answers.{giving};

use board::Board;
use refusal::Refusal;
use step_rules::{Effect, Outcome};

// No byte, and not forwarded.
pub(crate) const SILENT: Outcome = Outcome {
    byte: 0,
    forwarded: false,
};

// Forwarded to the host, with no byte.
pub(crate) const FORWARDED: Outcome = Outcome {
    byte: 0,
    forwarded: true,
};

// The record handed on, with an outcome.
pub(crate) fn accept(board: Board, outcome: Outcome) -> Effect
    ensures { result ≡ record { board = board; outcome = Ok outcome } }
{
    Effect {
        board: board.by_fields(),
        outcome: Ok(outcome),
    }
}

// The same with a byte.
pub(crate) fn give(board: Board, byte: u8) -> Effect
    ensures { result ≡ record { board = board; outcome = Ok (giving byte) } }
{
    accept(board, Outcome { byte, ..SILENT })
}

// The record given, and a refusal.
pub(crate) fn refuse(board: Board, refusal: Refusal) -> Effect
    ensures { result ≡ record { board = board; outcome = Err refusal } }
{
    Effect {
        board: board.by_fields(),
        outcome: Err(refusal),
    }
}

// A step's answer with its interrupt lines: of what a kind does, or of a refusal.
ghost use Rattle.std.specs.Prelude.{◌≡◌};
ghost use Rattle.refusal.specs.Numbers.{number};
ghost use Rattle.step_rules.specs.Answers.{int_line, nmi_line, refused_answer, told, answer_of};

use board::Board;
use refusal::Refusal;
use step_rules::{Answer, Effect, Reply};

#[tactic(auto, unfolding(step_rules::specs::Answers::int_line))]
fn int_line(b: Board) -> bool
    ensures { result ≡ int_line b }
{
    !(b.clock.counter == 0) | ((b.external == 1) | ((b.disc.line == 1) & (b.disc.route == 2)))
}

#[tactic(auto, unfolding(step_rules::specs::Answers::nmi_line))]
fn nmi_line(b: Board) -> bool
    ensures { result ≡ nmi_line b }
{
    (b.disc.route == 1) & (b.disc.line == 1)
}

// A refused step's answer: the record given, and its lines, which are off where it is not good.
#[tactic(auto, unfolding(step_rules::specs::Answers::refused_answer), using(crate::proofs::Answers::answered_number))]
pub(crate) fn refused(b: Board, refusal: Refusal) -> Answer
    ensures { result ≡ told (refused_answer b (number refusal)) }
{
    let known = refusal != Refusal::BadRecord;
    Answer {
        board: b,
        reply: Reply {
            outcome: Err(refusal),
            int: known & int_line(b),
            nmi: known & nmi_line(b),
        },
    }
}

// The answer of what a kind does: an NMI is shown once, and then the route is none.
#[tactic(auto, unfolding(step_rules::specs::Answers::answer_of, step_rules::specs::Answers::nmi_shown))]
pub(crate) fn with_interrupt_lines(e: Effect) -> Answer
    ensures { result ≡ answer_of e }
{
    let int = int_line(e.board);
    let nmi = nmi_line(e.board);
    let mut board = e.board.by_fields();
    if nmi {
        board.disc.route = 0;
    }
    Answer {
        board,
        reply: Reply {
            outcome: e.outcome,
            int,
            nmi,
        },
    }
}

// A step and power-on.
ghost use Rattle.std.specs.Prelude.{◌≡◌};
ghost use Rattle.board_power.specs.Power.{powered_on};
ghost use Rattle.step_rules.specs.Decoding.{decoded, numbers_answer, numbers_ram};
ghost use Rattle.c_calls.specs.Calls.{step_reply, power_on_reply};

use board::Board;
use c_numbers::{FORWARDED, INT, NMI, accepted, refused, refused_step};
use paging::{Paging, Sizes};

// The new record, and the reply.
#[derive(Clone, Copy)]
pub struct Returned {
    pub board: Board,
    pub word: u64,
}

// A step by its numbers.
#[tactic(auto, using(facts::proofs::Bools::bool_byte_le))]
pub fn step_reply(
    b: Board,
    kind: u32,
    number: u32,
    value: u32,
    ram: &mut [u8],
    boot: &[u8],
) -> Returned
    ensures { (result ≡ record { board = (numbers_answer b ram.old boot.now (decoded kind number value)).board; word = step_reply (numbers_answer b ram.old boot.now (decoded kind number value)).reply }) × (ram.new ≡ numbers_ram b ram.old boot.now (decoded kind number value)) }
{
    let a = step::step_by_numbers(b, kind, number, value, ram, boot);
    let reply = a.reply;
    let lines = INT * reply.int as u8 + NMI * reply.nmi as u8;
    match reply.outcome {
        Ok(o) => Returned {
            board: a.board,
            word: accepted(o.byte as u16, lines + FORWARDED * o.forwarded as u8, 0),
        },
        Err(refusal) => Returned {
            board: a.board,
            word: refused_step(refusal, lines),
        },
    }
}

// Power-on in place of any record.
pub fn power_on_reply(sizes: Sizes, rate: u8, paging: Paging, table: u8, top: u8) -> Returned
    ensures { result ≡ record { board = (powered_on sizes rate paging table top).board; word = power_on_reply (powered_on sizes rate paging table top) } }
{
    match board_power::power_on(sizes, rate, paging, table, top) {
        Ok(board) => Returned {
            board,
            word: accepted(0, 0, 0),
        },
        Err(refusal) => Returned {
            board: board_power::zeros(),
            word: refused(refusal),
        },
    }
}

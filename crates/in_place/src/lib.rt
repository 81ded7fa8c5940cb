// A step on a record that the caller keeps.
#![tactic(auto)]

ghost use Rattle.std.specs.Prelude.{◌≡◌};
ghost use Rattle.step_rules.specs.Answers.{step_answer, step_ram, told_reply};

use board::Board;
use step::{Reply, Step};

// The step of any kind, on the record where it stands.
pub fn step_in_place(b: &mut Board, s: Step, ram: &mut [u8], boot: &[u8]) -> Reply
    ensures { (result ≡ told_reply (step_answer b.old ram.old boot.now s).reply) × ((b.new ≡ (step_answer b.old ram.old boot.now s).board) × (ram.new ≡ step_ram b.old ram.old boot.now s)) }
{
    let a = step::step(*b, s, ram, boot);
    *b = a.board;
    a.reply
}

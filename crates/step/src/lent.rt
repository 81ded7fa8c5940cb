// What is lent to a step, checked.
ghost use Rattle.step.specs.Checked.{Checked};

use board::Board;
use refusal::Refusal;

// A record found good, lent with a RAM and a boot stream of the right length.
#[derive(Clone, Copy)]
pub(crate) struct GoodBoard {
    pub(crate) board: Board,
    ghost checked: { Checked board },
}

impl GoodBoard {
    ghost use Rattle.std.specs.Prelude.{◌≡◌, ◌≢◌, IfOk, IfErr};
    ghost use Rattle.refusal.specs.Numbers.{number};
    ghost use Rattle.step_rules.specs.Answers.{lent_refusal};

    // Refused for a record that is not good, then for a RAM or boot stream of the wrong length.
    #[tactic(auto, unfolding(step_rules::specs::Answers::lent_refusal, board::specs::Record::record_refusal, step_rules::specs::Answers::length_refusal, step_rules::specs::Answers::boot_fits, board::specs::Record::first_refusal, refusal::specs::Numbers::number))]
    pub(crate) fn lent(board: Board, ram: usize, boot: usize) -> Result<GoodBoard, Refusal>
        ensures ok { IfOk result (λ good. (lent_refusal board ram boot ≡ 0) × (good.board ≡ board)) }
        ensures err { IfErr result (λ refusal. (lent_refusal board ram boot ≡ number refusal) × (lent_refusal board ram boot ≢ 0)) }
    {
        if !board.is_good() {
            return Err(Refusal::BadRecord);
        }
        if !(board.sizes.ram_fits(ram) & (boot <= 1024)) {
            return Err(Refusal::BadLength);
        }
        Ok(GoodBoard { board })
    }
}

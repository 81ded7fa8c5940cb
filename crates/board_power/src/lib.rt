// Power-on.
#![tactic(auto)]

ghost use Rattle.std.specs.Prelude.{◌≡◌};
ghost use Rattle.refusal.specs.Numbers.{answered};
ghost use Rattle.board_power.specs.Power.{zero_board, fresh_board, powered_on};

use board::{Board, Boot, Disc};
use lineset::LineSet;
use paging::{Paging, Sizes};
use refusal::Refusal;
use scanline::Video;

// The record of zeros, which stands for none.
#[tactic(auto, unfolding(crate::specs::Power::zero_board))]
pub fn zeros() -> Board
    ensures { result ≡ zero_board }
{
    Board::default()
}

// The board as it starts.
#[tactic(auto, unfolding(crate::specs::Power::fresh_board, crate::specs::Power::zero_board))]
fn fresh(sizes: Sizes, rate: u8, paging: Paging, table: u8, top: u8) -> Board
    ensures { result ≡ fresh_board sizes rate paging table top }
{
    Board {
        sizes,
        rate,
        paging,
        video: Video {
            table,
            top,
            control: 0,
        },
        boot: Boot { mode: 1, at: 0 },
        disc: Disc {
            terminal_count: 1,
            ..Disc::default()
        },
        driven: 1,
        dirty: LineSet::shown(rate),
        ..zeros()
    }
}

// Refused for sizes that are not allowed or a rate other than 50 or 60. The five stand one by one, as in `powered_on`, the rule.
#[tactic(auto, unfolding(crate::specs::Power::powered_on, crate::specs::Power::power_on_refusal, board::specs::Record::good_rate, refusal::specs::Numbers::answered, refusal::specs::Numbers::named))]
pub fn power_on(
    sizes: Sizes,
    rate: u8,
    paging: Paging,
    table: u8,
    top: u8,
) -> Result<Board, Refusal>
    ensures { result ≡ answered (powered_on sizes rate paging table top).refusal (powered_on sizes rate paging table top).board }
{
    if sizes.allowed() & ((rate == 50) | (rate == 60)) {
        Ok(fresh(sizes, rate, paging, table, top))
    } else {
        Err(Refusal::BadSizes)
    }
}

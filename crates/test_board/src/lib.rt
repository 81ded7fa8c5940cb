// The boards that the test programs start from.
#![tactic(auto)]

ghost use Rattle.std.specs.Prelude.{◌≡◌};
ghost use Rattle.board_power.specs.Power.{powered_on};
ghost use Rattle.refusal.specs.Numbers.{answered};
ghost use Rattle.test_board.specs.Starts.{banks, smallest};

use board::Board;
use paging::{Paging, Sizes};
use refusal::Refusal;

// Power-on with each bank on the block of its number, and the table at place 0.
pub fn power_on(sizes: Sizes, rate: u8, table: u8) -> Result<Board, Refusal>
    ensures { result ≡ answered (powered_on sizes rate banks table 0).refusal (powered_on sizes rate banks table 0).board }
{
    let paging = Paging {
        maps: [0x80, 0x81, 0x82, 0x83],
        lock: 0,
    };
    board_power::power_on(sizes, rate, paging, table, 0)
}

// A board of 128 KB at power-on, its table at B600h; of zeros where the rate is refused.
#[tactic(auto, unfolding(board_power::specs::Power::powered_on, board_power::specs::Power::power_on_refusal, refusal::specs::Numbers::answered))]
pub fn start(rate: u8) -> Board
    ensures { result ≡ (powered_on smallest rate banks 0x5b 0).board }
{
    let sizes = Sizes {
        internal: 8,
        total: 8,
    };
    power_on(sizes, rate, 0x5b).unwrap_or(board_power::zeros())
}

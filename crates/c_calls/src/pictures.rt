// Draws, refreshes, the next dirty line and the first difference.
ghost use Rattle.std.specs.Prelude.{◌≡◌};
ghost use Rattle.picture.specs.Pictures.{draw_answer, draw_picture, refresh_answer, refresh_picture, next_answer};
ghost use Rattle.picture_compare.specs.Differences.{difference_answer};
ghost use Rattle.c_calls.specs.Calls.{draw_reply, refresh_reply, next_reply, difference_reply};

use crate::records::Returned;
use board::Board;
use c_numbers::{FLOATING, FOUND, accepted, refused};

#[tactic(auto, using(facts::proofs::Bools::bool_byte_le))]
pub fn draw_reply(b: Board, ram: &[u8], picture: &mut [u8]) -> u64
    ensures { (result ≡ draw_reply (draw_answer b ram.now picture.old)) × (picture.new ≡ draw_picture b ram.now picture.old) }
{
    match picture::draw(b, ram, picture) {
        Ok(d) => accepted(0, FLOATING * d.floating as u8, 0),
        Err(undrawn) => refused(undrawn),
    }
}

#[tactic(auto, using(facts::proofs::Bools::bool_byte_le))]
pub fn refresh_reply(b: Board, ram: &[u8], picture: &mut [u8]) -> Returned
    ensures { (result ≡ record { board = (refresh_answer b ram.now picture.old).board; word = refresh_reply (refresh_answer b ram.now picture.old) }) × (picture.new ≡ refresh_picture b ram.now picture.old) }
{
    match picture::refresh(b, ram, picture) {
        Ok(r) => Returned {
            board: r.board,
            word: accepted(r.count, FLOATING * r.floating as u8, 0),
        },
        Err(refusal) => Returned {
            board: b,
            word: refused(refusal),
        },
    }
}

// Every number over 255 is refused alike.
pub fn next_dirty_reply(b: Board, n: u32) -> u64
    ensures { result ≡ next_reply (next_answer b n) }
{
    match picture::next_dirty(b, n.min(256) as u16) {
        Ok(Some(line)) => accepted(line, FOUND, 0),
        Ok(None) => accepted(0, 0, 0),
        Err(refusal) => refused(refusal),
    }
}

pub fn first_difference_reply(a: &[u8], b: &[u8]) -> u64
    ensures { result ≡ difference_reply (difference_answer a.now b.now) }
{
    match picture_compare::first_difference(a, b) {
        Ok(Some(position)) => accepted(position.line as u16, FOUND, position.pixel),
        Ok(None) => accepted(0, 0, 0),
        Err(refusal) => refused(refusal),
    }
}

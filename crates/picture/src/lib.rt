// The picture: drawing and refreshing it, and the next dirty line.
#![tactic(auto)]

ghost use Rattle.std.specs.Prelude.{◌≡◌, IfErr, None, false, length};
ghost use Rattle.refusal.specs.Numbers.{answered};
ghost use Rattle.board.specs.Record.{record_refusal};
ghost use Rattle.picture.specs.Pictures.{lent_refusal, is_floating, draw_answer, draw_picture, refresh_answer, refresh_picture, next_answer, draw_result, refresh_result, next_result};

mod paint;

use board::Board;
use lineset::LineSet;
use paint::View;
use refusal::Refusal;

// Whether the video floats.
#[derive(Clone, Copy)]
pub struct Drawn {
    pub floating: bool,
}

// The record with no line dirty, how many lines were drawn, and whether the video floats.
#[derive(Clone, Copy)]
pub struct Refreshed {
    pub board: Board,
    pub count: u16,
    pub floating: bool,
}

#[tactic(auto, unfolding(board::specs::Record::record_refusal, refusal::specs::Numbers::answered, refusal::specs::Numbers::named))]
fn check_record(b: Board) -> Result<(), Refusal>
    ensures { result ≡ answered (record_refusal b) tt }
{
    if !b.is_good() {
        return Err(Refusal::BadRecord);
    }
    Ok(())
}

// The record, and the length of the RAM.
#[tactic(auto, unfolding(crate::specs::Pictures::lent_refusal, board::specs::Record::first_refusal, refusal::specs::Numbers::answered, refusal::specs::Numbers::named))]
fn check_lent(board: Board, ram: usize) -> Result<(), Refusal>
    ensures { result ≡ answered (lent_refusal board ram) tt }
{
    check_record(board)?;
    let sizes = board.sizes;
    if !sizes.ram_fits(ram) {
        return Err(Refusal::BadLength);
    }
    Ok(())
}

#[tactic(auto, unfolding(crate::specs::Pictures::is_floating))]
fn is_floating(b: Board) -> bool
    ensures { result ≡ is_floating b }
{
    b.driven == 0
}

// Draws every shown line.
#[tactic(auto, using(lineset::proofs::Shown::shown_at_most))]
pub fn draw(b: Board, ram: &[u8], picture: &mut [u8]) -> Result<Drawn, Refusal>
    ensures answer { result ≡ draw_result (draw_answer b ram.now picture.old) }
    ensures drawn { picture.new ≡ draw_picture b ram.now picture.old }
    ensures none { IfErr result (λ r. (draw_answer b ram.now picture.old).floating ≡ false) }
{
    check_lent(b, ram.len())?;
    let Some(lines) = picture.as_mut_array() else {
        return Err(Refusal::BadLength);
    };
    let view = View {
        video: b.video,
        ram,
    };
    view.paint_first(lineset::shown_count(b.rate), lines);
    Ok(Drawn {
        floating: is_floating(b),
    })
}

// Draws every dirty line.
pub fn refresh(b: Board, ram: &[u8], picture: &mut [u8]) -> Result<Refreshed, Refusal>
    ensures answer { result ≡ refresh_result (refresh_answer b ram.now picture.old) }
    ensures drawn { picture.new ≡ refresh_picture b ram.now picture.old }
    ensures given { IfErr result (λ r. (refresh_answer b ram.now picture.old).board ≡ b) }
    ensures none { IfErr result (λ r. ((refresh_answer b ram.now picture.old).count ≡ 0) × ((refresh_answer b ram.now picture.old).floating ≡ false)) }
{
    let dirty = b.dirty;
    check_lent(b, ram.len())?;
    let Some(lines) = picture.as_mut_array() else {
        return Err(Refusal::BadLength);
    };
    let view = View {
        video: b.video,
        ram,
    };
    view.paint_set(dirty, lines);
    Ok(Refreshed {
        board: Board {
            dirty: LineSet::empty(),
            ..b
        },
        count: dirty.count(),
        floating: is_floating(b),
    })
}

// The first dirty line at or after n.
#[tactic(auto, unfolding(crate::specs::Pictures::next_answer, crate::specs::Pictures::next_refusal, board::specs::Record::record_refusal, board::specs::Record::first_refusal, refusal::specs::Numbers::answered, refusal::specs::Numbers::named))]
pub fn next_dirty(b: Board, n: u16) -> Result<Option<u16>, Refusal>
    ensures answer { result ≡ next_result (next_answer b n) }
    ensures none { IfErr result (λ r. (next_answer b n).line ≡ None) }
{
    check_record(b)?;
    if n > 255 {
        return Err(Refusal::BadNumber);
    }
    Ok(b.dirty.next(n))
}

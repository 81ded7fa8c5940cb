// The first place where two pictures differ.
#![tactic(auto)]

ghost use Rattle.std.specs.Prelude.{◌≡◌, ◌≢◌, true, None, ℕ, ◌<◌, IfErr, length};
ghost use Rattle.panel.specs.Widen.{pixel_of};
ghost use Rattle.picture_compare.specs.Differences.{first_difference, difference_answer};
ghost use Rattle.refusal.specs.Numbers.{answered};

use refusal::Refusal;

// A line, and a pixel of it, 0 to 719.
#[derive(Clone, Copy, PartialEq, Eq, Debug)]
pub struct Position {
    pub line: u8,
    pub pixel: u16,
}

// The leftmost pixel in which two unequal bytes differ.
#[tactic(auto, using(crate::proofs::Pixels::first_unlike))]
fn unequal_pixel(x: u8, y: u8) -> u16
    requires { x ≢ y }
    ensures { (result < 8) × (((k : ℕ) → k < result → pixel_of x k ≡ pixel_of y k) × (pixel_of x result ≢ pixel_of y result)) }
{
    (x ^ y).leading_zeros() as u16
}

// Whether eight lines are the same. As arrays they are compared in place, many bytes a turn; as slices it is a call, and longer.
fn same_lines(a: &[u8], b: &[u8]) -> bool
    ensures { result ≡ true → a.now ≡ b.now }
{
    let Some(a) = a.as_array::<720>() else {
        return false;
    };
    let Some(b) = b.as_array::<720>() else {
        return false;
    };
    a == b
}

// Document 01: "Lines outside, bytes inside; the search is left by a label at the first unequal byte." Line and byte are read behind the
// label, so both are counted by hand. Eight lines that are the same are passed over at once.
#[tactic(auto, using(crate::proofs::Differences::alike_none, crate::proofs::Differences::alike_next, crate::proofs::Differences::alike_line, crate::proofs::Differences::alike_eight, crate::proofs::Differences::position_same))]
fn unequal_position(a: &[u8; 23040], b: &[u8; 23040]) -> Option<Position>
    ensures { result ≡ first_difference a.now b.now }
{
    let mut line: usize = 0;
    let mut i: usize = 0;
    'lines: loop {
        if line == 256 {
            return None;
        }
        if line % 8 == 0 {
            let first = line * 90;
            let end = first + 720;
            if same_lines(&a[first..end], &b[first..end]) {
                line += 8;
                continue;
            }
        }
        i = 0;
        while i < 90 {
            let at = line * 90 + i;
            if a[at] != b[at] {
                break 'lines;
            }
            i += 1;
        }
        line += 1;
    }
    let at = line * 90 + i;
    let k = unequal_pixel(a[at], b[at]);
    Some(Position {
        line: line as u8,
        pixel: 8 * i as u16 + k,
    })
}

// The first place where two pictures differ, if there is one.
#[tactic(auto, unfolding(crate::specs::Differences::difference_answer, scanline::specs::Drawing::picture_fits, refusal::specs::Numbers::answered, refusal::specs::Numbers::named), using(crate::proofs::Differences::second_unfit))]
pub fn first_difference(a: &[u8], b: &[u8]) -> Result<Option<Position>, Refusal>
    ensures value { result ≡ answered (difference_answer a.now b.now).refusal (difference_answer a.now b.now).position }
    ensures nowhere { IfErr result (λ r. (difference_answer a.now b.now).position ≡ None) }
{
    let Some(a) = a.as_array() else {
        return Err(Refusal::BadLength);
    };
    let Some(b) = b.as_array() else {
        return Err(Refusal::BadLength);
    };
    Ok(unequal_position(a, b))
}

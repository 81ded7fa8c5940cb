// The reach list: a line of text for each group of 9 bytes.
#![tactic(auto)]

ghost use Rattle.std.specs.Prelude.{◌≡◌, IfOk, ◌+◌, ◌*◌, ◌≤◌, ◌++◌, length, take, drop};
ghost use Rattle.facts.specs.Lists.{in_room};
ghost use Rattle.refusal.specs.Numbers.{number};
ghost use Rattle.reach.specs.Text.{hex_digit, reach_line, refusal_line, group_line, line_bytes};
ghost use Rattle.reach.specs.Text.{groups, reach_text, listed, listed_out};

use paging::{Paging, Sizes};
use refusal::Refusal;

// The line of a group, with its newline.
#[derive(Clone, Copy)]
enum Line {
    Reached([u8; 20]),
    Refused([u8; 4]),
}

impl Line {
    #[tactic(auto, unfolding(crate::specs::Text::line_bytes))]
    fn as_bytes(&self) -> &[u8]
        ensures { result.now ≡ line_bytes self.now }
    {
        match self {
            Line::Reached(bytes) => bytes,
            Line::Refused(bytes) => bytes,
        }
    }
}

// The last hex digit of a number, in upper case.
// By hand, as the lines are: std promises nothing of the bytes that `write!` puts into a `&mut [u8]`.
#[tactic(auto, unfolding(crate::specs::Text::hex_digit))]
fn digit(n: u16) -> u8
    ensures { result ≡ hex_digit n }
{
    let d = (n % 16) as u8;
    if d < 10 { b'0' + d } else { b'A' + (d - 10) }
}

#[tactic(auto, unfolding(crate::specs::Text::refusal_line, crate::specs::Text::line_bytes))]
fn refusal_line(refusal: Refusal) -> Line
    requires { number refusal ≤ 9 }
    ensures { line_bytes result ≡ refusal_line (number refusal) }
{
    Line::Refused([b'X', b' ', b'0' + u8::from(refusal), b'\n'])
}

#[tactic(auto, unfolding(paging::specs::Memory::reach_of, crate::specs::Text::reach_line, crate::specs::Text::hex2, crate::specs::Text::hex4, crate::specs::Text::line_bytes))]
fn reach_line(sizes: Sizes, paging: Paging, address: u16) -> Line
    ensures { line_bytes result ≡ reach_line sizes paging address }
{
    let reach = paging.reach(sizes, address);
    let r = reach.read as u16;
    let w = reach.write as u16;
    let p = reach.place;
    let a = digit(p / 4096);
    let b = digit(p / 256);
    let c = digit(p / 16);
    let d = digit(p);
    Line::Reached([
        b'R',
        b' ',
        digit(r / 16),
        digit(r),
        b' ',
        a,
        b,
        c,
        d,
        b' ',
        b'W',
        b' ',
        digit(w / 16),
        digit(w),
        b' ',
        a,
        b,
        c,
        d,
        b'\n',
    ])
}

// A group of less than 9 bytes is the last, and short.
#[tactic(auto, unfolding(refusal::specs::Numbers::number, crate::specs::Text::group_line, crate::specs::Text::whole_line, crate::specs::Text::sizes_of, crate::specs::Text::paging_of, crate::specs::Text::address_of))]
fn group_line(group: &[u8]) -> Line
    ensures { line_bytes result ≡ group_line group.now }
{
    let Some(&[internal, total, f0, f1, f2, f3, lock, low, high]) = group.first_chunk::<9>() else {
        return refusal_line(Refusal::BadLength);
    };
    let sizes = Sizes { internal, total };
    if !sizes.allowed() {
        return refusal_line(Refusal::BadSizes);
    }
    let paging = Paging {
        maps: [f0, f1, f2, f3],
        lock,
    };
    reach_line(sizes, paging, u16::from_le_bytes([low, high]))
}

// Puts the line of a group into `out` from `to` on, and gives the index past it.
#[tactic(auto, using(crate::proofs::Laws::group_line_length))]
fn put_line(group: &[u8], out: &mut [u8], to: usize) -> usize
    requires { to + 20 ≤ length out.old }
    ensures value { result ≡ to + length (group_line group.now) }
    ensures out_after { out.new ≡ take to out.old ++ group_line group.now ++ drop result out.old }
{
    let line = group_line(group);
    let bytes = line.as_bytes();
    let end = to + bytes.len();
    out[to..end].copy_from_slice(bytes);
    end
}

// How many groups there are, a short last one among them.
#[tactic(auto, unfolding(crate::specs::Text::groups))]
fn count(input: &[u8]) -> usize
    ensures { result ≡ groups (length input.now) }
{
    input.len().div_ceil(9)
}

// Puts the lines of all groups into `out`, and gives their length.
#[tactic(auto, using(crate::proofs::Laws::room, crate::proofs::Laws::text_length, facts::proofs::Rooms::room_length), unfolding(crate::specs::Text::reach_text, crate::specs::Text::groups))]
fn fill(input: &[u8], out: &mut [u8]) -> usize
    requires { 20 * groups (length input.now) ≤ length out.old }
    ensures value { result ≡ length (reach_text input.now) }
    ensures out_after { out.new ≡ in_room (reach_text input.now) out.old }
{
    let mut to = 0;
    for group in input.chunks(9) {
        to = put_line(group, out, to);
    }
    to
}

// Writes the text of `input` to the start of `out`, which must have 20 bytes for each group, and gives its length.
#[tactic(auto, using(crate::proofs::Laws::refused, crate::proofs::Laws::accepted, crate::proofs::Laws::text_within))]
pub fn list(input: &[u8], out: &mut [u8]) -> Result<usize, Refusal>
    ensures value { result ≡ listed input.now (length out.old) }
    ensures within { IfOk result (λ n. n ≤ length out.new) }
    ensures out_after { out.new ≡ listed_out input.now out.old }
{
    if out.len() / 20 < count(input) {
        return Err(Refusal::BadLength);
    }
    Ok(fill(input, out))
}

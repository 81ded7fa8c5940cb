// The lines that a store touches. The table's entries are tested in four quarters, so that 64 bytes of stack serve for all 256.
#![tactic(auto)]

ghost use Rattle.std.specs.Prelude.{◌≡◌, ℕ, ◌+◌, ◌*◌, ◌%◌, ◌≤◌, ◌<◌, Bool, get_or};
ghost use mir.Val.{bool_byte};
ghost use Rattle.lineset.specs.Lines.{set_of, packed};
ghost use Rattle.scanline.specs.Pointers.{pointer_word};
ghost use Rattle.scanline.specs.Drawing.{touches, pixel_touched};

use lineset::LineSet;
use scanline::{Video, entry_word};
use std::array;

// A quarter of the table's 256 entries, and an index of standard RAM that may be among their bytes.
#[derive(Clone, Copy)]
struct Quarter<'a> {
    ram: &'a [u8],
    table: u8,
    number: usize,
    at: usize,
    ghost of_four: { number < 4 },
    ghost in_standard_ram: { at < 131072 },
}

impl<'a> Quarter<'a> {
    // Whether the index is one of the 90 pixel bytes that an entry's word names: it has the same place in its eight bytes as
    // the line's start, and the way from there, in eights and round the 131,072 bytes of standard RAM, is below 90. A word
    // leaves out bit 3 of the start, so its eight is twice the word's. No branch, and 16 bits, since it is asked of every line.
    #[tactic(auto, using(scanline::proofs::Pixels::word_touched))]
    fn is_pixel_of(&self, entry: usize) -> bool
        requires { entry < 64 }
        ensures { result ≡ pixel_touched (pointer_word self.now.ram.now self.now.table 0 (64 * self.now.number + entry)) self.now.at }
    {
        let word = entry_word(self.ram, self.table, (64 * self.number + entry) as u8);
        let start = 2 * (word / 8);
        let eight = (self.at / 8) as u16;
        let way = (eight + 16384 - start) % 16384;
        (word % 8 == (self.at % 8) as u16) & (way < 90)
    }

    // For each entry a hit, 1 or 0: whether the index is among its pixel bytes or its two pointer bytes.
    fn hits(&self) -> [u8; 64]
        ensures { (j : ℕ) → j < 64 → get_or result j 0 ≡ bool_byte (touches self.now.ram.now self.now.table 0 self.now.at (64 * self.now.number + j)) }
    {
        let mut hits = array::from_fn(|entry| self.is_pixel_of(entry) as u8);
        if self.at / 128 == 4 * self.table as usize + self.number {
            hits[self.at % 128 / 2] = 1;
        }
        hits
    }

    // The entries as a word: those that another byte at the index alters.
    #[tactic(auto, using(crate::proofs::Hits::quarter_word))]
    fn word(&self) -> u64
        ensures { result ≡ packed (touches self.now.ram.now self.now.table 0 self.now.at) (64 * self.now.number) 64 }
    {
        hit_word(&self.hits())
    }
}

// Four hits as a number, the first in the lowest digit. Their bytes make one number; moved up by 21, 14, 7 and 0 digits and added up,
// in one product, the four stand side by side as its digits 21 to 24, and no two fall on one digit.
fn four_hits(hits: &[u8; 64], i: usize) -> u64
    requires { i + 4 ≤ 64 }
    ensures upper_bound { result < 16 }
    ensures by_index { (p : ℕ → Bool) → ((j : ℕ) → j < 64 → get_or hits.now j 0 ≡ bool_byte (p j)) → result ≡ packed p i 4 }
{
    let bytes = u32::from_le_bytes([hits[i], hits[i + 1], hits[i + 2], hits[i + 3]]);
    bytes as u64 * 2113665 / 2097152 % 16
}

// 64 hits as a word, made from its top digits down.
fn hit_word(hits: &[u8; 64]) -> u64
    ensures { (p : ℕ → Bool) → ((j : ℕ) → j < 64 → get_or hits.now j 0 ≡ bool_byte (p j)) → result ≡ packed p 0 64 }
{
    let mut m: u64 = 0;
    for i in (0..16).rev() {
        m = 16 * m + four_hits(hits, 4 * i);
    }
    m
}

// Of two words, one behind the other, the 64 digits from a digit of the first on.
#[tactic(auto, using(lineset::proofs::Packed::packed_from_digit))]
fn from_digit(low: u64, high: u64, digit: u64) -> u64
    requires { digit < 64 }
    ensures { (p : ℕ → Bool) (from : ℕ) → low ≡ packed p from 64 → high ≡ packed p (from + 64) 64 → result ≡ packed p (from + digit) 64 }
{
    low >> digit | high << 1 << (63 - digit)
}

// The quarter behind one; behind the last comes the first.
fn next_quarter(quarter: usize) -> usize
    requires { quarter < 4 }
    ensures { result ≡ (quarter + 1) % 4 }
{
    let next = quarter + 1;
    next % 4
}

// The lines for which another byte at an index of the RAM changes the pointer word or a pixel byte. Line 0 has the entry `top`, and
// after entry 255 comes entry 0. (F5 and F6 by themselves: given all of `Video`, a step keeps its whole record in memory, and a write that
// alters nothing takes 16 % more instructions.)
#[tactic(auto, using(crate::proofs::Hits::none_past))]
fn lines_touched(ram: &[u8], table: u8, top: u8, at: usize) -> LineSet
    ensures { result ≡ set_of (touches ram.now table top at) }
{
    if at >= 131072 {
        return LineSet::empty();
    }
    let first = top as usize / 64;
    let digit = top as u64 % 64;
    let quarters: [u64; 4] = array::from_fn(
        |i|
            requires { (at < 131072) × (first + i < 8) }
        {
            let quarter = Quarter {
                ram,
                table,
                number: (first + i) % 4,
                at,
            };
            quarter.word()
        },
    );
    LineSet {
        words: array::from_fn(|i| from_digit(quarters[i], quarters[next_quarter(i)], digit)),
    }
}

// The lines that a store at an index touches, under F5 and F6.
pub fn touched(ram: &[u8], video: Video, at: usize) -> LineSet
    ensures { result ≡ set_of (touches ram.now video.table video.top at) }
{
    lines_touched(ram, video.table, video.top, at)
}

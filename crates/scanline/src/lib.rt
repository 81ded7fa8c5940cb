// Scan lines: the pointer table and its words, read and made; a line's pixels, the drawn byte, and the video registers.
#![tactic(auto)]

ghost use Rattle.std.specs.Prelude.{◌≡◌, ◌+◌, ◌*◌, IfErr};
ghost use Rattle.refusal.specs.Numbers.{answered};
ghost use Rattle.scanline.specs.Pointers.{table_index, entry_of, entry_index, pointer_word, pointer_of, made_pointer};
ghost use Rattle.scanline.specs.Drawing.{pixel_index, drawn_byte, video_differs};

use paging::{byte_at, index};
use refusal::Refusal;

// F5, F6 and F7.
#[repr(C)]
#[derive(Clone, Copy, Default)]
pub struct Video {
    pub table: u8,
    pub top: u8,
    pub control: u8,
}

// Where a scan line's pixels start: a block of standard RAM, 0 to 7, and a place in it.
#[derive(Clone, Copy)]
pub struct Pointer {
    pub block: u8,
    pub start: u16,
}

// The index of the pointer table that F5 names.
#[tactic(auto, unfolding(crate::specs::Pointers::table_index))]
pub fn table_index(table: u8) -> usize
    ensures { result ≡ table_index table }
{
    index(table / 32, 512 * (table % 32) as u16)
}

// Two bytes as a word, low first. (Not by from_le_bytes: draw and refresh, and all that they call, have no local array.)
fn word(low: u8, high: u8) -> u16
    ensures { result ≡ low + 256 * high }
{
    low as u16 + 256 * high as u16
}

// The word of a table's entry, which is line 0's where the top line is the first.
pub fn entry_word(ram: &[u8], table: u8, entry: u8) -> u16
    ensures { result ≡ pointer_word ram.now table 0 entry }
{
    Video {
        table,
        top: 0,
        control: 0,
    }
    .pointer_word(ram, entry)
}

impl Video {
    // The table entry of a line.
    #[tactic(auto, unfolding(crate::specs::Pointers::entry_of))]
    pub fn entry(self, line: u8) -> u8
        ensures { result ≡ entry_of self.top line }
    {
        self.top.wrapping_add(line)
    }

    // The index of a line's table entry.
    #[tactic(auto, using(crate::proofs::Pointers::table_index_lem), unfolding(crate::specs::Pointers::entry_index))]
    pub fn entry_index(self, line: u8) -> usize
        ensures { result ≡ entry_index self.table self.top line }
    {
        table_index(self.table) + 2 * self.entry(line) as usize
    }

    // The pointer word of a line; a byte past the RAM's end counts as 0. A RAM of eight blocks or more holds every entry: the
    // one test of its length stands outside a loop over entries, which is then done sixteen entries at a time.
    #[tactic(auto, using(crate::proofs::Pointers::entry_index_lt), unfolding(crate::specs::Pointers::pointer_word))]
    pub fn pointer_word(self, ram: &[u8], line: u8) -> u16
        ensures { result ≡ pointer_word ram.now self.table self.top line }
    {
        let at = self.entry_index(line);
        if ram.len() < 131072 {
            return word(byte_at(ram, at), byte_at(ram, at + 1));
        }
        word(ram[at], ram[at + 1])
    }
}

// The block and start of a pointer word. This and `make_pointer` are named functions, no `From` and `TryFrom`: a call then says
// which of the two it does.
#[tactic(auto, unfolding(crate::specs::Pointers::pointer_of))]
pub fn read_pointer(word: u16) -> Pointer
    ensures { result ≡ pointer_of word }
{
    Pointer {
        block: (word / 8192) as u8,
        start: 16 * (word % 8192 / 8) + word % 8192 % 8,
    }
}

// The pointer word of a block and a start, which `read_pointer` takes back to them.
#[tactic(auto, unfolding(crate::specs::Pointers::made_pointer, crate::specs::Pointers::pointer_refusal, crate::specs::Pointers::word_of, refusal::specs::Numbers::answered, refusal::specs::Numbers::named))]
pub fn make_pointer(p: Pointer) -> Result<u16, Refusal>
    ensures value { result ≡ answered (made_pointer p).refusal (made_pointer p).word }
    ensures none { IfErr result (λ r. (made_pointer p).word ≡ 0) }
{
    if p.block > 7 || p.start > 16383 || p.start / 8 % 2 == 1 {
        return Err(Refusal::BadNumber);
    }
    Ok(p.block as u16 * 8192 + p.start / 16 * 8 + p.start % 8)
}

// The index of pixel byte i of a line, which runs on from block to block, and from block 7 into block 0.
#[tactic(auto, unfolding(crate::specs::Drawing::pixel_index))]
pub fn pixel_index(p: Pointer, i: u8) -> usize
    ensures { result ≡ pixel_index p i }
{
    let way = 8 * i as usize;
    (index(p.block, p.start) + way) % 131072
}

// A RAM byte as F7 has it drawn.
#[tactic(auto, unfolding(crate::specs::Drawing::drawn_byte))]
pub fn drawn_byte(control: u8, byte: u8) -> u8
    ensures { result ≡ drawn_byte control byte }
{
    let shown = if control / 64 % 2 == 1 { byte } else { 0 };
    if control / 128 % 2 == 1 {
        !shown
    } else {
        shown
    }
}

// Whether F5, F6, or D7 or D6 of F7 differ. No derived `==`: the other bits of F7 draw nothing.
#[tactic(auto, unfolding(crate::specs::Drawing::video_differs))]
pub fn video_differs(v: Video, w: Video) -> bool
    ensures { result ≡ video_differs v w }
{
    v.table != w.table || v.top != w.top || v.control / 64 != w.control / 64
}

// What a store does to the record.
ghost use Rattle.std.specs.Prelude.{◌≡◌, ◌||◌, List, ℕ, ◌<◌, eqb, leb, length, get_or, set};
ghost use Rattle.paging.specs.Memory.{keyboard_index};
ghost use Rattle.lineset.specs.Lines.{set_of};
ghost use Rattle.scanline.specs.Drawing.{touches};
ghost use Rattle.board.specs.Dirty.{with_marks};

use crate::record::Board;
use lineset::LineSet;
use paging::{byte_at, keyboard_index};
use scanline_touch::touched;

// Whether a store marks no line whatever the lines are drawn from: they are drawn from blocks 0 to 7 alone, and an equal byte changes
// nothing.
fn is_unmarked(ram: &[u8], at: usize, value: u8) -> bool
    ensures { result ≡ (leb 131072 at || eqb (get_or ram.now at 0) value) }
{
    at >= 131072 || byte_at(ram, at) == value
}

impl Board {
    // The record with the shown ones among the lines that another byte at an index touches dirty.
    fn mark(self, lines: LineSet) -> Board
        ensures { (ram : List ℕ) (at x : ℕ) → at < length ram → (get_or ram at 0 ≡ x → ⊥) → lines ≡ set_of (touches ram self.video.table self.video.top at) → result ≡ with_marks self ram self (set ram at x) }
    {
        let shown = lines.intersection(LineSet::shown(self.rate));
        Board {
            dirty: self.dirty.union(shown),
            ..self
        }
    }

    // A byte to be stored at an index of the RAM, with the lines that it makes dirty; the RAM is not written here.
    pub fn store(self, ram: &[u8], at: usize, value: u8) -> Board
        ensures { result ≡ with_marks self ram.now self (set ram.now at value) }
    {
        if is_unmarked(ram, at, value) {
            return self;
        }
        if at >= ram.len() {
            return self;
        }
        self.mark(touched(ram, self.video, at))
    }

    // A byte to be stored from the keyboard, at its offset. It is `store` in full: called from here too, `store` is no longer made part of
    // a write, and each write takes up to 140 instructions more.
    pub fn key(self, ram: &[u8], offset: u8, value: u8) -> Board
        ensures { result ≡ with_marks self ram.now self (set ram.now (keyboard_index offset) value) }
    {
        let index = keyboard_index(offset);
        if is_unmarked(ram, index, value) {
            return self;
        }
        if index >= ram.len() {
            return self;
        }
        self.mark(touched(ram, self.video, index))
    }
}

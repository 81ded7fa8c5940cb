// What fetches, reads, writes and keyboard words do.
ghost use Rattle.std.specs.Prelude.{◌≡◌, List, ℕ, get_or, set};
ghost use Rattle.paging.specs.Memory.{read_index};
ghost use Rattle.step_rules.specs.After.{board_after, ram_after};
ghost use Rattle.step_rules.specs.Answers.{step_effect, effect_ram};

use crate::effects::{SILENT, accept, give, refuse};
use crate::lent::GoodBoard;
use board::{Board, Boot};
use paging::{byte_at, index, keyboard_index};
use refusal::Refusal;
use step_rules::{Effect, Step};

// The byte that a read reaches.
#[tactic(auto, unfolding(paging::specs::Memory::read_index, paging::specs::Memory::reach_of))]
fn read_byte(b: Board, address: u16, ram: &[u8]) -> u8
    ensures { result ≡ get_or ram.now (read_index b.sizes b.paging address) 0 }
{
    let reach = b.paging.reach(b.sizes, address);
    byte_at(ram, index(reach.read, reach.place))
}

#[tactic(auto, using(crate::proofs::Does::read_does))]
pub(crate) fn read(good: GoodBoard, address: u16, ram: &[u8]) -> Effect
    ensures { (boot : List ℕ) → result ≡ step_effect good.board ram.now boot (Step.Read address) }
{
    let byte = read_byte(good.board, address, ram);
    give(good.board, byte)
}

// In boot mode the stream's next byte, else the byte read.
#[tactic(auto, using(crate::proofs::Does::fetch_reads, crate::proofs::Does::fetch_ends, crate::proofs::Does::fetch_takes))]
pub(crate) fn fetch(good: GoodBoard, address: u16, ram: &[u8], boot: &[u8]) -> Effect
    ensures { result ≡ step_effect good.board ram.now boot.now (Step.Fetch address) }
{
    let b = good.board;
    if b.boot.mode != 1 {
        let byte = read_byte(b, address, ram);
        return give(b, byte);
    }
    let Some(&byte) = boot.get(b.boot.at as usize) else {
        return refuse(b, Refusal::StreamEnded);
    };
    let after = Board {
        boot: Boot {
            at: b.boot.at + 1,
            ..b.boot
        },
        ..b
    };
    give(after, byte)
}

// A byte stored; past the end nothing is. (The contract of a slice's get_mut says nothing of what is written.)
fn put(ram: &mut [u8], at: usize, value: u8)
    ensures { ram.new ≡ set ram.old at value }
{
    if at < ram.len() {
        ram[at] = value;
    }
}

// No line is drawn from a block past 7. The lines are marked by the block that is written, not by the one that is read.
#[tactic(auto, unfolding(step_rules::specs::After::board_after, paging::specs::Memory::write_index, paging::specs::Memory::reach_of), using(crate::proofs::Does::equal_marks, crate::proofs::Does::equal_stores, crate::proofs::Does::past_marks, crate::proofs::Does::write_does, crate::proofs::Does::write_stores))]
pub(crate) fn write(good: GoodBoard, address: u16, value: u8, ram: &mut [u8]) -> Effect
    ensures { (boot : List ℕ) → (result ≡ step_effect good.board ram.old boot (Step.Write address value)) × (ram.new ≡ effect_ram good.board ram.old boot (Step.Write address value)) }
{
    let b = good.board;
    let reach = b.paging.reach(b.sizes, address);
    let marked = index(reach.write, reach.place);
    let stored = index(reach.write, reach.place);
    // The byte is there already: neither record nor RAM changes, and a write is done a tenth sooner than by storing it again.
    if byte_at(ram, stored) == value {
        return accept(b, SILENT);
    }
    if reach.write > 7 {
        put(ram, stored, value);
        return accept(b, SILENT);
    }
    let written = b.store(ram, marked, value);
    put(ram, stored, value);
    accept(written, SILENT)
}

// A byte from the keyboard, at an offset from 0 to 15.
#[tactic(auto, using(crate::proofs::Does::key_refused, crate::proofs::Does::key_keeps, crate::proofs::Does::key_does, crate::proofs::Does::key_stores))]
pub(crate) fn key(b: Board, offset: u8, value: u8, ram: &mut [u8]) -> Effect
    ensures { (boot : List ℕ) → (result ≡ step_effect b ram.old boot (Step.Key offset value)) × (ram.new ≡ effect_ram b ram.old boot (Step.Key offset value)) }
{
    if offset > 15 {
        return refuse(b, Refusal::BadNumber);
    }
    let keyed = b.key(ram, offset, value);
    put(ram, keyboard_index(offset), value);
    accept(keyed, SILENT)
}

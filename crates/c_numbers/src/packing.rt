// Results packed in one number, and so packed the results that need no record.
ghost use Rattle.std.specs.Prelude.{◌≡◌};
ghost use Rattle.refusal.specs.Numbers.{answered, number};
ghost use Rattle.scanline.specs.Pointers.{pointer_of, made_pointer};
ghost use Rattle.c_numbers.specs.Packing.{made_pointer_reply, pointer_reply, reach_reply};
ghost use Rattle.c_numbers.specs.Packing.{reply};

use paging::{Paging, Sizes};
use refusal::Refusal;
use scanline::Pointer;

// The bits of the flags.
pub const INT: u8 = 1;

pub const NMI: u8 = 2;

pub const FORWARDED: u8 = 4;

pub const FLOATING: u8 = 8;

pub const FOUND: u8 = 16;

// C is given one number, by the rule `reply`.
#[tactic(auto, unfolding(crate::specs::Packing::reply))]
pub fn reply(value: u16, flags: u8, refusal: u8, more: u16) -> u64
    ensures { result ≡ reply value flags refusal more }
{
    value as u64
        + (65536 * flags as u64 + (4294967296 * refusal as u64 + 1099511627776 * more as u64))
}

pub fn accepted(value: u16, flags: u8, more: u16) -> u64
    ensures { result ≡ reply value flags 0 more }
{
    reply(value, flags, 0, more)
}

pub fn refused(refusal: Refusal) -> u64
    ensures { result ≡ reply 0 0 (number refusal) 0 }
{
    refused_step(refusal, 0)
}

// A refusal beside which the interrupt lines are shown.
pub fn refused_step(refusal: Refusal, flags: u8) -> u64
    ensures { result ≡ reply 0 flags (number refusal) 0 }
{
    reply(0, flags, u8::from(refusal), 0)
}

// A pointer word read.
#[tactic(auto, unfolding(crate::specs::Packing::pointer_reply))]
pub fn read_pointer_reply(word: u16) -> u64
    ensures { result ≡ pointer_reply (pointer_of word) }
{
    let p = scanline::read_pointer(word);
    accepted(p.start, 0, p.block as u16)
}

// Numbers wider than a block or a start are refused as those over 7 and 16,383 are.
#[tactic(auto, unfolding(refusal::specs::Numbers::answered, refusal::specs::Numbers::named), using(scanline::proofs::Pointers::made_refused))]
fn made(block: u32, start: u32) -> Result<u16, Refusal>
    ensures { result ≡ answered (made_pointer (record { block = block; start = start })).refusal (made_pointer (record { block = block; start = start })).word }
{
    let (Ok(block), Ok(start)) = (u8::try_from(block), u16::try_from(start)) else {
        return Err(Refusal::BadNumber);
    };
    scanline::make_pointer(Pointer { block, start })
}

// A pointer word made.
#[tactic(auto, unfolding(crate::specs::Packing::made_pointer_reply))]
pub fn make_pointer_reply(block: u32, start: u32) -> u64
    ensures { result ≡ made_pointer_reply (made_pointer (record { block = block; start = start })) }
{
    made(block, start).map_or_else(refused, |word| accepted(word, 0, 0))
}

// Where an access lands.
#[tactic(auto, unfolding(crate::specs::Packing::reach_reply, paging::specs::Memory::reach_of, refusal::specs::Numbers::number))]
pub fn reach_reply(sizes: Sizes, paging: Paging, address: u16) -> u64
    ensures { result ≡ reach_reply sizes paging address }
{
    if !sizes.allowed() {
        return refused(Refusal::BadSizes);
    }
    let reach = paging.reach(sizes, address);
    let read = reach.read as u16;
    let write = reach.write as u16;
    accepted(reach.place, 0, read + 256 * write)
}

// The C interface of what needs no record.
ghost use Rattle.std.specs.Prelude.{◌≡◌, length};
ghost use Rattle.roll.specs.Roll.{roll_of};
ghost use Rattle.panel.specs.Widen.{widen_refusal, widened_out};
ghost use Rattle.scanline.specs.Pointers.{pointer_of, made_pointer};
ghost use Rattle.picture_compare.specs.Differences.{difference_answer};
ghost use Rattle.c_numbers.specs.Packing.{made_pointer_reply, pointer_reply, reach_reply, sizes_of, paging_of};
ghost use Rattle.c_calls.specs.Calls.{difference_reply};

use c_calls::first_difference_reply;
use c_numbers::{make_pointer_reply, reach_reply, read_pointer_reply};
use paging::{Paging, Sizes};

// JOYCE_VERSION of the header that this library is of: a change of the record's layout or of a reply raises it.
#[unsafe(no_mangle)]
pub extern "C" fn joyce_version() -> u32
    ensures { result ≡ 1 }
{
    1
}

// One line of 90 bytes as 180, each pixel twice; the refusal number.
#[unsafe(no_mangle)]
pub extern "C" fn joyce_widen(line: &[u8], out: &mut [u8]) -> u8
    ensures { (result ≡ widen_refusal (length line.now) (length out.old)) × (out.new ≡ widened_out line.now out.old) }
{
    match panel::widen(line, out) {
        Ok(()) => 0,
        Err(refusal) => u8::from(refusal),
    }
}

// The roll of the top line, -128 to 127.
#[unsafe(no_mangle)]
pub extern "C" fn joyce_roll(old_top: u8, new_top: u8) -> i8
    ensures { result ≡ roll_of old_top new_top }
{
    roll::roll(old_top, new_top)
}

#[unsafe(no_mangle)]
pub extern "C" fn joyce_read_pointer(word: u16) -> u64
    ensures { result ≡ pointer_reply (pointer_of word) }
{
    read_pointer_reply(word)
}

// A pointer word; numbers wider than a block or a start take are refused as those over 7 and 16,383 are.
#[unsafe(no_mangle)]
pub extern "C" fn joyce_make_pointer(block: u32, start: u32) -> u64
    ensures { result ≡ made_pointer_reply (made_pointer (record { block = block; start = start })) }
{
    make_pointer_reply(block, start)
}

// Where an access lands.
#[unsafe(no_mangle)]
pub extern "C" fn joyce_reach(
    internal: u8,
    total: u8,
    f0: u8,
    f1: u8,
    f2: u8,
    f3: u8,
    lock: u8,
    address: u16,
) -> u64
    ensures { result ≡ reach_reply (sizes_of internal total) (paging_of f0 f1 f2 f3 lock) address }
{
    let paging = Paging {
        maps: [f0, f1, f2, f3],
        lock,
    };
    reach_reply(Sizes { internal, total }, paging, address)
}

// The first place where two pictures differ.
#[unsafe(no_mangle)]
pub extern "C" fn joyce_first_difference(a: &[u8], b: &[u8]) -> u64
    ensures { result ≡ difference_reply (difference_answer a.now b.now) }
{
    first_difference_reply(a, b)
}

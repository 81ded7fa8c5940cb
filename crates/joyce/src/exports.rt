// The C interface of the record.
ghost use Rattle.std.specs.Prelude.{◌≡◌};
ghost use Rattle.board_power.specs.Power.{powered_on};
ghost use Rattle.picture.specs.Pictures.{draw_answer, draw_picture, refresh_answer, refresh_picture, next_answer};
ghost use Rattle.step_rules.specs.Decoding.{decoded, numbers_answer, numbers_ram};
ghost use Rattle.c_numbers.specs.Packing.{sizes_of, paging_of};
ghost use Rattle.c_calls.specs.Calls.{step_reply, power_on_reply, draw_reply, refresh_reply, next_reply};

use board::Board;
use c_calls::{draw_reply, next_dirty_reply, power_on_reply, refresh_reply, step_reply};
use paging::{Paging, Sizes};

#[unsafe(no_mangle)]
pub extern "C" fn joyce_step(
    b: &mut Board,
    kind: u32,
    number: u32,
    value: u32,
    ram: &mut [u8],
    boot: &[u8],
) -> u64
    ensures { (result ≡ step_reply (numbers_answer b.old ram.old boot.now (decoded kind number value)).reply) × ((b.new ≡ (numbers_answer b.old ram.old boot.now (decoded kind number value)).board) × (ram.new ≡ numbers_ram b.old ram.old boot.now (decoded kind number value))) }
{
    let a = step_reply(*b, kind, number, value, ram, boot);
    b.set_by_fields(a.board);
    a.word
}

#[unsafe(no_mangle)]
pub extern "C" fn joyce_power_on(
    b: &mut Board,
    internal: u8,
    total: u8,
    rate: u8,
    f0: u8,
    f1: u8,
    f2: u8,
    f3: u8,
    lock: u8,
    f5: u8,
    f6: u8,
) -> u64
    ensures { (result ≡ power_on_reply (powered_on (sizes_of internal total) rate (paging_of f0 f1 f2 f3 lock) f5 f6)) × (b.new ≡ (powered_on (sizes_of internal total) rate (paging_of f0 f1 f2 f3 lock) f5 f6).board) }
{
    let paging = Paging {
        maps: [f0, f1, f2, f3],
        lock,
    };
    let a = power_on_reply(Sizes { internal, total }, rate, paging, f5, f6);
    *b = a.board;
    a.word
}

#[unsafe(no_mangle)]
pub extern "C" fn joyce_draw(b: &Board, ram: &[u8], picture: &mut [u8]) -> u64
    ensures { (result ≡ draw_reply (draw_answer b.now ram.now picture.old)) × (picture.new ≡ draw_picture b.now ram.now picture.old) }
{
    draw_reply(*b, ram, picture)
}

#[unsafe(no_mangle)]
pub extern "C" fn joyce_refresh(b: &mut Board, ram: &[u8], picture: &mut [u8]) -> u64
    ensures { (result ≡ refresh_reply (refresh_answer b.old ram.now picture.old)) × ((b.new ≡ (refresh_answer b.old ram.now picture.old).board) × (picture.new ≡ refresh_picture b.old ram.now picture.old)) }
{
    let a = refresh_reply(*b, ram, picture);
    *b = a.board;
    a.word
}

#[unsafe(no_mangle)]
pub extern "C" fn joyce_next_dirty(b: &Board, n: u32) -> u64
    ensures { result ≡ next_reply (next_answer b.now n) }
{
    next_dirty_reply(*b, n)
}

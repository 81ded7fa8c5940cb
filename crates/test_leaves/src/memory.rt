// Indexes of the RAM, what stands there, and the lines that a store there touches.
use crate::sets::counted;
use paging::{Paging, Sizes, byte_at, keyboard_index};
use scanline::Video;
use scanline_touch::touched;
use std::io;

// The indexes that an address reads and writes.
fn reach(rt: &impl Print, internal: u8, total: u8, address: u16) -> io::Result<()> {
    let sizes = Sizes { internal, total };
    let p = Paging {
        maps: [0x25, 0x25, 0xa8, 0x87],
        lock: 0x40,
    };
    let r = p.reach(sizes, address);
    let read = paging::index(r.read, r.place);
    let write = paging::index(r.write, r.place);
    println!(rt; "address {address:04x}: read {read:06x} write {write:06x}")
}

fn video(table: u8, top: u8) -> Video {
    Video {
        table,
        top,
        control: 0,
    }
}

pub(crate) fn indexes(rt: &impl Print) -> io::Result<()> {
    reach(rt, 8, 8, 0x0005)?;
    reach(rt, 8, 8, 0x7fff)?;
    reach(rt, 32, 40, 0x8001)?;
    reach(rt, 8, 41, 0x8001)?;
    reach(rt, 8, 8, 0xffff)?;
    println!(rt;
        "keyboard bytes {:06x} {:06x}",
        keyboard_index(0),
        keyboard_index(15)
    )?;
    print!(rt;
        "entry of line 1, F6 = 255: {:06x}",
        video(0x99, 255).entry_index(1)
    )?;
    print!(rt; " F6 = 254: {:06x}", video(0x99, 254).entry_index(1))?;
    println!(rt;
        " line 255, F6 = 0: {:06x}",
        video(0xff, 0).entry_index(255)
    )
}

fn bytes(rt: &impl Print, ram: &[u8]) -> io::Result<()> {
    print!(rt;
        "first {:02x} last {:02x}",
        byte_at(ram, 0),
        byte_at(ram, 1023)
    )?;
    println!(rt; " past the end {:02x}", byte_at(ram, 1024))?;
    print!(rt; "line 0 {:04x}", video(0, 0).pointer_word(ram, 0))?;
    print!(rt; " line 1 {:04x}", video(0, 0).pointer_word(ram, 1))?;
    print!(rt;
        " from top line 255 {:04x}",
        video(0, 255).pointer_word(ram, 1)
    )?;
    println!(rt; " past the end {:04x}", video(2, 0).pointer_word(ram, 0))
}

fn touches(rt: &impl Print, ram: &[u8]) -> io::Result<()> {
    let first = video(0, 0);
    counted(rt, "000000", touched(ram, first, 0))?;
    counted(rt, "000001", touched(ram, first, 1))?;
    counted(rt, "000002, from top line 2", touched(ram, video(0, 2), 2))?;
    counted(rt, "000008", touched(ram, first, 8))?;
    counted(rt, "000401", touched(ram, first, 0x401))?;
    counted(rt, "0006c9", touched(ram, first, 0x6c9))?;
    counted(rt, "004000", touched(ram, first, 0x4000))?;
    counted(rt, "020000", touched(ram, first, 0x20000))
}

// A table at block 0: line 0 has the word 0201h, line 255 of the second table 9897h.
pub(crate) fn table(rt: &impl Print) -> io::Result<()> {
    let mut ram = [0; 1024];
    ram[..4].copy_from_slice(&[0x01, 0x02, 0x03, 0x04]);
    ram[1022..].copy_from_slice(&[0x97, 0x98]);
    bytes(rt, &ram)?;
    touches(rt, &ram)
}

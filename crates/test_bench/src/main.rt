// Runs the bench cases of document 01 through the public functions and prints what they give: numbers in hex, and of a roll
// whether it is as said. That the rules give what is said is shown in crate `bench_rules`.
#![tactic(auto)]

use board::Board;
use paging::{Paging, Sizes};
use scanline::{Pointer, Video, drawn_byte, make_pointer, pixel_index, read_pointer};
use std::io;
use step::{Step, step};

// The read block and the write block of a map byte that is not locked.
fn map_case(rt: &impl Print, label: &str, internal: u8, total: u8, map: u8) -> io::Result<()> {
    let sizes = Sizes { internal, total };
    let read = sizes.map_read(false, map);
    let write = sizes.map_write(map);
    println!(rt; "{label} {read:02x} {write:02x}")
}

// The blocks and the place of an address, internal 16 and total 16.
fn address_case(rt: &impl Print, label: &str, lock: u8, address: u16) -> io::Result<()> {
    let sizes = Sizes {
        internal: 16,
        total: 16,
    };
    let p = Paging {
        maps: [0x80, 0x25, 0x98, 0x87],
        lock,
    };
    let reach = p.reach(sizes, address);
    println!(rt;
        "{label} {:02x} {:02x} {:04x}",
        reach.read, reach.write, reach.place
    )
}

// The word of a pointer, or why there is none.
fn made(rt: &impl Print, p: Pointer) -> io::Result<()> {
    match make_pointer(p) {
        Ok(word) => println!(rt; " {word:04x} 00"),
        Err(refusal) => println!(rt; " 0000 {:02x}", u8::from(refusal)),
    }
}

// A pointer word read, and made again.
fn pointer_case(rt: &impl Print, label: &str, word: u16) -> io::Result<()> {
    let p = read_pointer(word);
    print!(rt; "{label} {:02x} {:04x}", p.block, p.start)?;
    made(rt, p)
}

// Pointers that are refused with 3.
fn refused_case(rt: &impl Print, label: &str, block: u8, start: u16) -> io::Result<()> {
    print!(rt; "{label}")?;
    made(rt, Pointer { block, start })
}

// The index of a pixel byte of a pointer word.
fn pixel_case(rt: &impl Print, label: &str, word: u16, i: u8) -> io::Result<()> {
    println!(rt; "{label} {:05x}", pixel_index(read_pointer(word), i))
}

// A roll, held to the number that document 01 says.
fn roll_case(rt: &impl Print, label: &str, old: u8, new: u8, said: i8) -> io::Result<()> {
    let not = if roll::roll(old, new) == said {
        ""
    } else {
        " not"
    };
    println!(rt; "{label}{not} as said")
}

// A board of 128 KB at power-on, its maps as in the cases of addresses, its table at 0.
fn start(rate: u8) -> Board {
    let b = test_board::start(rate);
    Board {
        paging: Paging {
            maps: [0x80, 0x25, 0x98, 0x87],
            lock: 0,
        },
        video: Video {
            table: 0,
            ..b.video
        },
        ..b
    }
}

// Counter 3: the bytes that F8, F4 and F4 again give.
fn status_case(rt: &impl Print, label: &str, ram: &mut [u8]) -> io::Result<()> {
    let mut b = start(50);
    b.clock.counter = 3;
    print!(rt; "{label}")?;
    for port in [0xf8, 0xf4, 0xf4] {
        let a = step(b, Step::PortIn(port), ram, &[]);
        print!(rt; " {:02x}", a.reply.outcome.map_or(0, |o| o.byte))?;
        b = a.board;
    }
    println!(rt; "")
}

// One scan from a beam with the counter at 0: the counter and the beam then.
fn scan_case(rt: &impl Print, label: &str, rate: u8, beam: u16, ram: &mut [u8]) -> io::Result<()> {
    let mut b = start(rate);
    b.clock.beam = beam;
    let clock = step(b, Step::Scan, ram, &[]).board.clock;
    println!(rt; "{label} {:02x} {:03x}", clock.counter, clock.beam)
}

// The cases of the clock, on a RAM of 8 blocks.
fn clock_cases(rt: &impl Print) -> io::Result<()> {
    let mut ram = [0; 131072];
    status_case(rt, "P11", &mut ram)?;
    scan_case(rt, "P13 1 to 2", 50, 1, &mut ram)?;
    scan_case(rt, "P13 2 to 3", 50, 2, &mut ram)?;
    scan_case(rt, "P13 311 to 0, 50 Hz", 50, 311, &mut ram)?;
    scan_case(rt, "P13 259 to 0, 60 Hz", 60, 259, &mut ram)
}

fn memory_cases(rt: &impl Print) -> io::Result<()> {
    map_case(rt, "P1", 16, 16, 0x98)?;
    map_case(rt, "P2", 32, 32, 0x98)?;
    map_case(rt, "P3 A7", 32, 40, 0xa7)?;
    map_case(rt, "P3 A8", 32, 40, 0xa8)?;
    address_case(rt, "P4", 0x00, 0x4000)?;
    address_case(rt, "P5 lock 10", 0x10, 0x4000)?;
    address_case(rt, "P5 lock 20", 0x20, 0x4000)
}

fn line_cases(rt: &impl Print) -> io::Result<()> {
    pointer_case(rt, "P6", 0x2c98)?;
    pointer_case(rt, "P7", 0xffff)?;
    pixel_case(rt, "P8 byte 71", 0x3ee0, 71)?;
    pixel_case(rt, "P8 byte 72", 0x3ee0, 72)?;
    println!(rt; "P9 {:05x}", scanline::table_index(0x99))?;
    let video = Video {
        table: 0x99,
        top: 0xff,
        control: 0,
    };
    println!(rt; "P10 {:02x}", video.entry(1))
}

fn pixel_cases(rt: &impl Print) -> io::Result<()> {
    println!(rt; "P12 on {:02x}", drawn_byte(0x40, 0xa5))?;
    println!(rt; "P12 reverse {:02x}", drawn_byte(0xc0, 0xa5))?;
    println!(rt; "P12 off {:02x}", drawn_byte(0x00, 0xa5))?;
    println!(rt; "P12 off and reverse {:02x}", drawn_byte(0x80, 0xa5))?;
    println!(rt; "P12 widened {:04x}", panel::doubled(0xa5))
}

fn roll_cases(rt: &impl Print) -> io::Result<()> {
    roll_case(rt, "P14 255 to 0 is 1", 255, 0, 1)?;
    roll_case(rt, "P14 0 to 255 is -1", 0, 255, -1)?;
    roll_case(rt, "P14 0 to 128 is -128", 0, 128, -128)
}

fn main(rt: HostRuntime) -> io::Result<()> {
    memory_cases(&rt)?;
    line_cases(&rt)?;
    pixel_cases(&rt)?;
    clock_cases(&rt)?;
    roll_cases(&rt)?;
    address_case(&rt, "FFFF", 0x00, 0xffff)?;
    refused_case(&rt, "block over 7", 8, 0)?;
    refused_case(&rt, "start over 16,383", 0, 16384)?;
    refused_case(&rt, "bit 3 of start", 0, 8)
}

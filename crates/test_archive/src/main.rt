// Archives written and read, by a list on standard input. There is an archive that is held, room for the next, and a picture. The
// files stdin and stdout were made from document 02.
//
// The list is groups of 16 bytes: four numbers, op a b c, each low first. Op 0 prints the 64 bytes that follow. 1 makes the archive
// held a bytes long; 2 the room a bytes; 3 the picture a bytes, with the pattern b. 4 starts an archive in the room; 5 adds the
// picture as the frame of bench a, number b and shown c; 6 holds what was written. 7 turns over the bits b in byte a of the archive
// held; 8 asks for the count while they are turned over. 9 asks for the count, 10 for entry a, 11 for entry a as it stands, 12 where
// bench a and number b stand; 13 reads entry a into the picture; 14 asks whether bench a and shown b are in range; 15 prints the
// bytes from a up to b. Any other does nothing.
#![tactic(auto)]

mod desk;
mod lent;
mod op;
mod print;

use crate::desk::Desk;
use crate::op::Op;
use reading::{read_full, read_group};
use std::io;
use std::io::Read;

// Where the input ends within a title, what is left of it is zeros.
fn title(rt: &impl Print, input: &mut impl Read) -> io::Result<()> {
    let mut title = [0; 64];
    read_full(input, &mut title)?;
    rt.write_all(&title)
}

fn main(rt: HostRuntime) -> io::Result<()> {
    let mut held = [0; 400000];
    let mut room = [0; 400000];
    let mut picture = [0; 23050];
    let mut desk = Desk::new(&mut held, &mut room, &mut picture);
    let mut input = rt.reader();
    // A proved loop ends: this one at a number that no run uses up.
    for _ in 0..u64::MAX {
        let Some(group) = read_group(&mut input)? else {
            return Ok(());
        };
        match Op::from(group) {
            Op::Title => title(&rt, &mut input)?,
            op => desk.take(&rt, op)?,
        }
    }
    Ok(())
}

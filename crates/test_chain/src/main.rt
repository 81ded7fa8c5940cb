// The record's methods by value, chained over a run: the record that one returns is the one that the next is called on. There is no
// step and no refusal. The files stdin and stdout were made from documents 01 and 02.
//
// The list on standard input is groups of five bytes, op a b c v; an index of the RAM is a + 256 * b + 65536 * c. Op 0 is a power-on at
// rate v, with the RAM's pattern; 1 a scan; 2 v to port a; 3 v stored at the index; 4 v stored from the keyboard at offset a; 5 prints
// the record; 6 prints the byte v; 7 a scan, v to F6 and v stored at the index, in one expression; 8 leaves no line dirty. Any other
// does nothing.
#![tactic(auto)]

mod machine;
mod op;

use crate::machine::Machine;
use crate::op::Op;
use reading::read_group;
use std::io;

fn main(rt: HostRuntime) -> io::Result<()> {
    let mut machine = Machine {
        board: test_board::start(50),
        ram: [0; 131072],
    };
    let mut input = rt.reader();
    // A proved loop ends: this one at a number that no run uses up.
    for _ in 0..u64::MAX {
        let Some(group) = read_group(&mut input)? else {
            return Ok(());
        };
        machine.take(&rt, Op::from(group))?;
    }
    Ok(())
}

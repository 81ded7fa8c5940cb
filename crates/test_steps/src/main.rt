// Runs a list of groups from standard input on one record and one RAM, and prints their answers. The files stdin and
// stdout were both made from documents 01 and 02.
#![tactic(auto)]

mod group;
mod machine;

use crate::group::Group;
use crate::machine::Machine;
use reading::read_full;
use std::io;

fn main(rt: HostRuntime) -> io::Result<()> {
    // A list is 65,536 bytes at most: what follows is not read. An interrupted read ends the run, where `read_to_end` would go on.
    let mut buffer = [0; 65536];
    let got = read_full(&mut rt.reader(), &mut buffer)?;
    let list = &buffer[..got];
    // 18 blocks of zeros and a byte.
    let mut memory = [0; 294913];
    let mut machine = Machine::new(&rt, &mut memory, list)?;
    for &group in list.as_chunks::<4>().0 {
        machine.take(&rt, Group::from(group))?;
    }
    Ok(())
}

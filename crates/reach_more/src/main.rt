// The reach list, run on more groups than one chunk holds: bad sizes, every bank, lock bit and kind of map, and a short last group.
// A program is run on one input, so each list has its own.
#![tactic(auto)]

use std::io;

fn main(rt: HostRuntime) -> io::Result<()> {
    reach_io::run(&rt)
}

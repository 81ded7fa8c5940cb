// The reach list, run on the sample of document 01.
// A program is run on one input, so each list has its own.
#![tactic(auto)]

use std::io;

fn main(rt: HostRuntime) -> io::Result<()> {
    reach_io::run(&rt)
}

// A long list of steps and refreshes, scene after scene.
// A program is run on one input, so each list has its own.
#![tactic(auto)]

use std::io;

fn main(rt: HostRuntime) -> io::Result<()> {
    test_list::run(&rt)
}

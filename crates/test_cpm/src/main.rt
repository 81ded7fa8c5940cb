// The standard CP/M screen: its table laid and all 32 rows written with text, by steps.
// A program is run on one input, so each list has its own.
#![tactic(auto)]

use std::io;

fn main(rt: HostRuntime) -> io::Result<()> {
    test_list::run(&rt)
}

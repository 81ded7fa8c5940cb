// Prints what the functions below the steps answer. The file stdout was made from documents 01 and 02.
#![tactic(auto)]

mod memory;
mod sets;
mod wide;

use std::io;

fn main(rt: HostRuntime) -> io::Result<()> {
    println!(rt; "== sets of lines")?;
    sets::sets(&rt)?;
    println!(rt; "== the next line of a set")?;
    sets::lines(&rt)?;
    println!(rt; "== indexes")?;
    memory::indexes(&rt)?;
    println!(rt; "== bytes and pointer words")?;
    memory::table(&rt)?;
    println!(rt; "== a line widened")?;
    wide::wide(&rt)?;
    wide::not_wide(&rt)
}

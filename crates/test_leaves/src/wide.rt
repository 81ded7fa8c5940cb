// A line widened for the panel, and lengths that are refused.
use std::{fmt, io};

// Bytes in hex, with nothing between them.
#[derive(Clone, Copy)]
struct Hex<'a>(&'a [u8]);

impl fmt::Display for Hex<'_> {
    fn fmt<W: fmt::Write>(&self, f: &mut fmt::Formatter<W>) -> fmt::Result {
        for byte in self.0 {
            write!(f, "{byte:02x}")?;
        }
        Ok(())
    }
}

fn widened(rt: &impl Print, line: &[u8], out: &mut [u8]) -> io::Result<()> {
    let refusal = panel::widen(line, out).err();
    println!(rt; "refusal {} {}", refusal.map_or(0, u8::from), Hex(out))
}

pub(crate) fn wide(rt: &impl Print) -> io::Result<()> {
    let mut line = [0; 90];
    for (i, byte) in line.iter_mut().enumerate() {
        *byte = (i % 256 * 37 % 256) as u8;
    }
    widened(rt, &line, &mut [0x77; 180])
}

pub(crate) fn not_wide(rt: &impl Print) -> io::Result<()> {
    widened(rt, &[0; 90], &mut [0x77; 179])?;
    widened(rt, &[0; 91], &mut [0x77; 180])?;
    widened(rt, &[], &mut [0x77; 180])
}

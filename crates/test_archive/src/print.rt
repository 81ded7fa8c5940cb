// What an answer prints.
use archive::Entry;
use refusal::Refusal;
use std::{fmt, io};

#[derive(Clone, Copy)]
pub(crate) struct Fields(pub Entry);

impl fmt::Display for Fields {
    fn fmt<W: fmt::Write>(&self, f: &mut fmt::Formatter<W>) -> fmt::Result {
        let e = self.0;
        write!(f, "bench {} number {}", e.bench, e.number)?;
        write!(f, " shown {} offset {}", e.shown, e.offset)
    }
}

// The end of a line: the number of the refusal, 0 for none.
pub(crate) fn print_refusal<T: Drop>(
    rt: &impl Print,
    answer: Result<T, Refusal>,
) -> io::Result<()> {
    println!(rt; " refusal {}", answer.err().map_or(0, u8::from))
}

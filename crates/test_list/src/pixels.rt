// Lines of a picture, pixel by pixel.
use std::fmt;

// The bytes of one line, the leftmost pixel of each in its top bit: a lit pixel is `#`, a dark one `.`.
#[derive(Clone, Copy)]
pub(crate) struct Pixels<'a>(pub &'a [u8]);

impl fmt::Display for Pixels<'_> {
    fn fmt<W: fmt::Write>(&self, f: &mut fmt::Formatter<W>) -> fmt::Result {
        for byte in self.0 {
            for bit in (0..8u32).rev() {
                f.write_char(if byte >> bit & 1 == 1 { '#' } else { '.' })?;
            }
        }
        Ok(())
    }
}

// Reads for the programs. What a clause says of the bytes that came holds of a reader whose bytes are known, as a slice.
#![tactic(auto)]

ghost use Rattle.std.specs.Prelude.{◌<◌, ◌≤◌, None, Some, IfOk, MatchOption, length, take};
ghost use Rattle.std.specs.Io.KnownBytes.{Consumes, IsAtEnd};

use std::io;
use std::io::Read;

// Reads until `buf` is full or the input ends, and gives how many bytes came.
pub fn read_full<R: Read>(from: &mut R, buf: &mut [u8]) -> io::Result<usize>
    ensures count { IfOk result (λ n. n ≤ length buf.new) }
    ensures bytes { IfOk result (λ n. Consumes (R.remaining from.old) (R.remaining from.new) (take n buf.new)) }
    ensures end { IfOk result (λ n. n < length buf.new → IsAtEnd (R.remaining from.new)) }
{
    let mut done = 0;
    while done < buf.len() {
        let got = from.read(&mut buf[done..])?;
        if got == 0 {
            return Ok(done);
        }
        done += got;
    }
    Ok(done)
}

// The next N bytes, if so many come before the input ends. (Each program has a loop of its own over them: a closure that takes such an
// array is not covered by the borrow checker.)
pub fn read_group<const N: usize, R: Read>(from: &mut R) -> io::Result<Option<[u8; N]>>
    ensures { IfOk result (λ o. MatchOption o (IsAtEnd (R.remaining from.new)) (λ g. Consumes (R.remaining from.old) (R.remaining from.new) g)) }
{
    let mut group = [0u8; N];
    let got = read_full(from, &mut group)?;
    Ok((got == N).then_some(group))
}

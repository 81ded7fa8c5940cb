// The reach list as a program: groups of 9 bytes from standard input, lines of text to standard output.
#![tactic(auto)]

ghost use Rattle.std.specs.Prelude.{◌≡◌, IfOk};

use reading::read_full;
use std::io;
use std::io::Read;

// Lists one chunk, and answers whether another may follow. A chunk that `input` does not fill is the last. `run` lends the room that
// each group may take, so no chunk is refused.
fn list_some(
    rt: &impl Print,
    from: &mut impl Read,
    input: &mut [u8],
    out: &mut [u8],
) -> io::Result<bool> {
    let got = read_full(from, input)?;
    if let Ok(n) = reach::list(&input[..got], out) {
        rt.write_all(&out[..n])?;
    }
    Ok(got == input.len())
}

// A proved loop has to end, and nothing says that the input does. So the loop counts its turns down, from a number that no run uses up.
// By hand, as the wrong programs `turns_at_zero` and `turns_never_fall` have it: a `for` leaves nothing of them to refuse.
fn list_all(
    rt: &impl Print,
    from: &mut impl Read,
    input: &mut [u8],
    out: &mut [u8],
) -> io::Result<()> {
    let mut turns = u64::MAX;
    while turns > 0 && list_some(rt, from, input, out)? {
        turns -= 1;
    }
    Ok(())
}

// 400 groups at a time, so that a chunk ends where a group does, and the 20 bytes that each may take. No clause can say what is read
// or written: what each chunk gives is `reach::list`, and that chunks may be cut so is its law `chunked`.
pub fn run(rt: &(impl Print + Input)) -> io::Result<()>
    ensures { IfOk result (λ x. x ≡ tt) }
{
    rt.write_all(b"REACH\n")?;
    let mut input = [0u8; 3600];
    let mut out = [0u8; 8000];
    list_all(rt, &mut rt.reader(), &mut input, &mut out)
}

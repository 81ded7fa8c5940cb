// A list of steps and refreshes on a real RAM and picture, read from standard input. After every refresh the picture is
// held against a full draw, and the count against the dirty lines before; each scene prints one line. The lists of the
// programs and what they must print were made from documents 01 and 02.
//
// The list is groups of four bytes, op a b c. Ops 1 to 9 are a step of that kind, its number a + 256 * b and value c; 10 a
// power-on at rate a; 11 a refresh; 12 a step of kind a, number b and value c on a RAM one byte short; 13 a refresh of
// a picture one byte short; 20 the end of a scene; 21 a byte to print; 22 line a of the picture to print.
#![tactic(auto)]

ghost use Rattle.std.specs.Prelude.{◌≡◌, IfOk};

mod machine;
mod op;
mod pixels;
mod tally;

use crate::machine::Machine;
use crate::op::Op;
use reading::read_group;
use std::io;

// No clause can say what is read or written.
pub fn run(rt: &(impl Print + Input)) -> io::Result<()>
    ensures { IfOk result (λ x. x ≡ tt) }
{
    let mut machine = Machine::new();
    let mut input = rt.reader();
    // A proved loop ends: this one at a number that no run uses up.
    for _ in 0..u64::MAX {
        let Some(group) = read_group(&mut input)? else {
            return Ok(());
        };
        machine.take(rt, Op::from(group))?;
    }
    Ok(())
}

// One line of 90 bytes widened to 180, each pixel twice. The leftmost pixel is in the top bit.
ghost use Rattle.std.specs.Prelude.{◌≡◌, length};
ghost use Rattle.panel.specs.Widen.{widened, widen_refusal, widened_out};
ghost use Rattle.refusal.specs.Numbers.{answered};

use crate::doubles::doubled;
use refusal::Refusal;

// Writes the wide line. By index, since std's `chunks_mut` and the like do not say what the slice holds in the end.
#[tactic(auto, using(facts::proofs::Filled::filled_none, crate::proofs::Widening::filled_all))]
fn fill(line: &[u8; 90], out: &mut [u8; 180])
    ensures { out.new ≡ widened line.now }
{
    for i in 0..90 {
        [out[2 * i], out[2 * i + 1]] = doubled(line[i]).to_be_bytes();
    }
}

// Widens one line. Nothing is written where a length is wrong.
#[tactic(auto, unfolding(crate::specs::Widen::widen_fits, crate::specs::Widen::widen_refusal, crate::specs::Widen::widened_out, refusal::specs::Numbers::answered, refusal::specs::Numbers::named))]
pub fn widen(line: &[u8], out: &mut [u8]) -> Result<(), Refusal>
    ensures value { result ≡ answered (widen_refusal (length line.now) (length out.old)) tt }
    ensures out_after { out.new ≡ widened_out line.now out.old }
{
    let Some(line) = line.as_array() else {
        return Err(Refusal::BadLength);
    };
    let Some(out) = out.as_mut_array() else {
        return Err(Refusal::BadLength);
    };
    fill(line, out);
    Ok(())
}

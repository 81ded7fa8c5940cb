// Whether a record is good. Every call asks: what the rate bounds is tested by the rate, and the flags stand together, so that a
// compiler tests them as one.
ghost use Rattle.std.specs.Prelude.{◌≡◌};
ghost use Rattle.board.specs.Record.{good};
ghost use Rattle.board.specs.Ranges.{timing_in_range, numbers_in_range, flags_in_range};

use crate::clock::frame_scans;
use crate::record::Board;

// The rate, and what it bounds: the beam and the dirty lines. On 60 Hz lines 200 to 255 are not shown: bits 8 to 63 of the last word.
fn timing_in_range(b: Board) -> bool
    ensures { result ≡ timing_in_range b }
{
    let scans = frame_scans(b.rate);
    let words = b.dirty.words;
    if b.rate == 50 {
        return b.clock.beam < scans;
    }
    (b.rate == 60) & ((b.clock.beam < scans) & (words[3] < 256))
}

#[tactic(auto, unfolding(crate::specs::Ranges::numbers_in_range))]
fn numbers_in_range(b: Board) -> bool
    ensures { result ≡ numbers_in_range b }
{
    (b.clock.counter <= 15)
        & ((b.boot.at <= 1024)
            & ((b.disc.route <= 2) & !((b.disc.route == 1) & (b.disc.line == 1))))
}

#[tactic(auto, unfolding(crate::specs::Ranges::flags_in_range))]
fn flags_in_range(b: Board) -> bool
    ensures { result ≡ flags_in_range b }
{
    (b.boot.mode <= 1)
        & ((b.disc.line <= 1)
            & ((b.disc.terminal_count <= 1)
                & ((b.disc.motor <= 1)
                    & ((b.external <= 1) & ((b.driven <= 1) & (b.bleeper <= 1))))))
}

impl Board {
    // Whether every field is in range, no unshown line is dirty, and route NMI does not meet the disc line on.
    pub fn is_good(self) -> bool
        ensures { result ≡ good self }
    {
        let sizes = self.sizes;
        let s = sizes.allowed();
        let t = timing_in_range(self);
        let n = numbers_in_range(self);
        let f = flags_in_range(self);
        s & (t & (n & f))
    }
}

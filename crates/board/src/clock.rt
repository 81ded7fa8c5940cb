// A scan of the clock.
ghost use Rattle.std.specs.Prelude.{◌≡◌};
ghost use Rattle.board.specs.Clock.{frame, next_beam, scanned};

use crate::record::Clock;

// Scans in a frame.
#[tactic(auto, unfolding(crate::specs::Clock::frame))]
pub(crate) fn frame_scans(rate: u8) -> u16
    ensures { result ≡ frame rate }
{
    if rate == 50 { 312 } else { 260 }
}

// The next scan of a frame, from the last to 0.
#[tactic(auto, unfolding(crate::specs::Clock::frame, crate::specs::Clock::next_beam))]
fn next_beam(rate: u8, beam: u16) -> u16
    ensures { result ≡ next_beam rate beam }
{
    let last = frame_scans(rate) - 1;
    if beam < last { beam + 1 } else { 0 }
}

impl Clock {
    // One scan on: the beam, and at a tick's beam the counter, which stays at 15.
    #[tactic(auto, unfolding(crate::specs::Clock::scanned, crate::specs::Clock::ticks))]
    pub fn next(self, rate: u8) -> Clock
        ensures { result ≡ scanned rate self }
    {
        let counter = self.counter;
        let beam = next_beam(rate, self.beam);
        if beam % 52 != 2 {
            return Clock { counter, beam };
        }
        if counter < 15 {
            return Clock {
                counter: counter + 1,
                beam,
            };
        }
        Clock { counter: 15, beam }
    }
}

// Why a call is refused.
#![tactic(auto)]

ghost use Rattle.std.specs.Prelude.{◌≡◌};
ghost use Rattle.refusal.specs.Numbers.{number};

use std::fmt;

// A call that is refused has changed nothing.
#[derive(Clone, Copy, PartialEq, Eq, Debug)]
pub enum Refusal {
    BadRecord,
    BadLength,
    BadNumber,
    StreamEnded,
    NoPort,
    BadSizes,
    BadArchive,
    BadFrame,
    NoRoom,
}

// The number that the C interface gives.
impl From<Refusal> for u8 {
    ghost from_gives = { λ r n. n ≡ number r };

    #[tactic(auto, unfolding(crate::specs::Numbers::number))]
    fn from(r: Refusal) -> u8 {
        match r {
            Refusal::BadRecord => 1,
            Refusal::BadLength => 2,
            Refusal::BadNumber => 3,
            Refusal::StreamEnded => 4,
            Refusal::NoPort => 5,
            Refusal::BadSizes => 6,
            Refusal::BadArchive => 10,
            Refusal::BadFrame => 11,
            Refusal::NoRoom => 12,
        }
    }
}

// Number and meaning.
impl fmt::Display for Refusal {
    fn fmt<W: fmt::Write>(&self, f: &mut fmt::Formatter<W>) -> fmt::Result {
        let meaning = match self {
            Refusal::BadRecord => "the record is not good",
            Refusal::BadLength => "a lent buffer has the wrong length",
            Refusal::BadNumber => "a number is out of range, or is given where none is taken",
            Refusal::StreamEnded => "the boot stream has ended",
            Refusal::NoPort => "the board has no such port",
            Refusal::BadSizes => "the sizes are not allowed, or the rate is neither 50 nor 60",
            Refusal::BadArchive => "not a sound archive",
            Refusal::BadFrame =>
                "the frame is there already, a field is out of range, or there is no such entry",
            Refusal::NoRoom => "the archive is full, or its new length is over the room lent",
        };
        write!(f, "refused with {}: {meaning}", u8::from(*self))
    }
}

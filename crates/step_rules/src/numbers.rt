// A step from plain numbers.
ghost use Rattle.std.specs.Prelude.{◌≡◌};
ghost use Rattle.step_rules.specs.Decoding.{in_range, decoded, step_of};

use crate::Step;

// Whether a kind, from 1 to 9, takes a number and a value; where it takes none, that is 0.
#[tactic(auto, unfolding(crate::specs::Decoding::in_range, crate::specs::Decoding::largest_number, crate::specs::Decoding::largest_value))]
fn in_range(kind: u32, number: u32, value: u32) -> bool
    ensures { result ≡ in_range kind number value }
{
    match kind {
        1 => (number <= 65535) & (value <= 0),
        2 => (number <= 65535) & (value <= 0),
        3 => (number <= 65535) & (value <= 255),
        4 => (number <= 255) & (value <= 0),
        5 => (number <= 255) & (value <= 255),
        6 => (number <= 0) & (value <= 0),
        7 => (number <= 255) & (value <= 255),
        8 => (number <= 0) & (value <= 1),
        9 => (number <= 0) & (value <= 1),
        _ => false,
    }
}

// The step that a kind, a number and a value name; where they name none, one that is refused alike, and no error: so no second way
// through a step is compiled. Kind, number and value stand one by one, as C gives them to joyce_step. (One match over kind, number and value, with ranges, takes each step 6 to 13
// instructions more.)
#[tactic(auto, unfolding(crate::specs::Decoding::decoded, crate::specs::Decoding::step_of, crate::specs::Decoding::step_named, crate::specs::Decoding::in_range, crate::specs::Decoding::largest_number, crate::specs::Decoding::largest_value))]
pub fn decode_step(kind: u32, number: u32, value: u32) -> Step
    ensures { result ≡ step_of (decoded kind number value) }
{
    if !in_range(kind, number, value) {
        return Step::Key(16, 0);
    }
    let address = (number % 65536) as u16;
    let low = (number % 256) as u8;
    let byte = (value % 256) as u8;
    match kind {
        1 => Step::Fetch(address),
        2 => Step::Read(address),
        3 => Step::Write(address, byte),
        4 => Step::PortIn(low),
        5 => Step::PortOut(low, byte),
        6 => Step::Scan,
        7 => Step::Key(low, byte),
        8 => Step::DiscLine(value == 1),
        9 => Step::ExternalLine(value == 1),
        _ => Step::Key(16, 0),
    }
}

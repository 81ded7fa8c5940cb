// How far the picture rolls when the top line changes.
#![tactic(auto)]

ghost use Rattle.std.specs.Prelude.{◌≡◌};
ghost use Rattle.roll.specs.Roll.{roll_of};

// The number from -128 to 127 that added to the old top line gives the new one mod 256.
#[tactic(auto, unfolding(crate::specs::Roll::roll_of, crate::specs::Roll::nearest))]
pub fn roll(old: u8, new: u8) -> i8
    ensures { result ≡ roll_of old new }
{
    new.wrapping_sub(old).cast_signed()
}

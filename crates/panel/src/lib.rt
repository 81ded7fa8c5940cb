// What the 1,440-wide panel needs: a line with each pixel twice.
#![tactic(auto)]

mod doubles;
mod doubling;

pub use doubles::doubled;
pub use doubling::widen;

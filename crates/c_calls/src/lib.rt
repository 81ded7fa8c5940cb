// By value, what the C interface takes and gives: plain numbers in, the record and a packed number out.
#![tactic(auto)]

pub mod pictures;
pub mod records;

pub use pictures::{draw_reply, first_difference_reply, next_dirty_reply, refresh_reply};
pub use records::{Returned, power_on_reply, step_reply};

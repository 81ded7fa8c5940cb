// The board: its record, whether that is good, and what a scan, a port and a store do to it, by value.
#![tactic(auto)]

mod clock;
mod copies;
mod methods;
mod ranges;
mod record;
mod stores;

pub use record::{Board, Boot, Clock, Disc};

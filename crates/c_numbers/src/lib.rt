// The numbers of the C interface: results packed in one number.
#![tactic(auto)]

mod packing;

pub use packing::{
    FLOATING, FORWARDED, FOUND, INT, NMI, accepted, make_pointer_reply, reach_reply,
    read_pointer_reply, refused, refused_step, reply,
};

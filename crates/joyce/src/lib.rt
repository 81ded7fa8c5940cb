// The C interface of the board. Thin: each function that is lent a record calls one that takes it by value, and the results are
// those of the by-value functions.
#![tactic(auto)]

mod archives;
mod exports;
mod plain;

//! What the steps of the machine have in common: how a part of a node runs, and how what is done at once becomes an end.
#![tactic(auto)]

mod ends;
mod family;
mod operands;
mod operators;
mod parts;

pub use ends::{give, signal_of, take_step};
pub use family::Family;
pub use operands::plain;
pub use parts::{await_part, await_statement, enter_part, run_part, run_statement};

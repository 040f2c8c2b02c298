//! The steps of expressions: values that are there at once, operators, choices, properties that are read or deleted, literals and comma
//! expressions (ECMA-262 5.1 section 11).
#![tactic(auto)]

mod begin;
mod elements;
mod fields;
mod held;
mod operators;
mod plain;
mod properties;
mod sequences;
mod sides;

pub use begin::begin_first;
pub use operators::go_operator;
pub use plain::begin_plain;
pub use properties::go_property;
pub use sequences::{begin_sequence, go_sequence};

//! A page before its scripts: the built-in objects by age, and the objects of its nodes (ECMA-262 5.1 section 15).
#![tactic(auto)]

mod methods;
mod objects;
mod tables;

pub use objects::pristine;

//! The built-in functions of arrays that call nothing back (ECMA-262 5.1 section 15.4.4). They are done at once, but each turn of an index
//! loop takes a step; turns over the arguments of the call take none.
#![tactic(auto)]

mod concatenation;
mod copying;
mod ends;
mod joining;
mod places;
mod reversal;
mod rows;
mod searching;
mod slicing;
mod splicing;

pub use rows::row;

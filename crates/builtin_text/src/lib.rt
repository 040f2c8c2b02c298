//! The built-in functions of texts and numbers (ECMA-262 5.1 sections 15.1.2, 15.5, 15.7 and 15.8).
#![tactic(auto)]

mod characters;
mod cutting;
mod math;
mod methods;
mod numbers;
mod parsing;
mod parts;
mod positions;
mod radix;
mod rows;
mod searching;
mod splitting;
mod strings;
mod texts;

pub use rows::row;

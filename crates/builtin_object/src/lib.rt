//! The built-in functions of objects, truth values and errors, and `Array` and its `isArray` (ECMA-262 5.1 sections 15.2, 15.3.4, 15.4.2,
//! 15.4.3, 15.6 and 15.11), and those that print lines.
#![tactic(auto)]

mod definitions;
mod descriptors;
mod errors;
mod lines;
mod objects;
mod own;
mod prototype;
mod rows;
mod values;

pub use rows::row;

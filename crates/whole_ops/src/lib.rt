//! The operators on numbers, equality, order and conversions of values, and numbers as texts: what the language does to whole
//! numbers.
#![tactic(auto)]

mod arithmetic;
mod bit_ops;
mod conversions;
mod digits;
mod equality;
mod fault;
mod laws;
mod numeral;
mod order;
mod power;
mod text;
mod white_space;

pub use arithmetic::{add, div, mul, rem, sub};
pub use bit_ops::{BitOp, bits, not, to_uint32};
pub use conversions::{is_true, number_of, text_of};
pub use equality::{loose, same};
pub use fault::{LooseFault, OpFault};
pub use laws::{law_worked_conversions, law_worked_equality, law_worked_texts};
pub use numeral::to_number;
pub use order::{less, text_less};
pub use power::pow;
pub use white_space::{is_str_white_space, trimmed};

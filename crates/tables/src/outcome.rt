//! What operators give.

use js_core::Whole;
use std::fmt;
use whole_ops::{LooseFault, OpFault};

/// What an operator answers.
#[derive(Clone, Copy, PartialEq, Eq)]
pub enum Outcome {
    /// a number
    Number(Whole),
    /// true or false
    Truth(bool),
    /// no number of the language
    Outside,
    /// neither true nor false, since an operand is NaN
    Unordered,
    /// nothing: there is no such operator, or none for these operands
    Unknown,
}

impl Outcome {
    /// What a number or a fault is.
    pub fn of_outcome(outcome: Result<Whole, OpFault>) -> Outcome {
        match outcome {
            Ok(number) => Outcome::Number(number),
            Err(OpFault::Outside) => Outcome::Outside,
        }
    }

    /// What an order is.
    pub fn of_order(order: Option<bool>) -> Outcome {
        match order {
            Some(truth) => Outcome::Truth(truth),
            None => Outcome::Unordered,
        }
    }

    /// What `==` gives.
    pub fn of_loose(outcome: Result<bool, LooseFault>) -> Outcome {
        match outcome {
            Ok(truth) => Outcome::Truth(truth),
            Err(LooseFault::Outside) => Outcome::Outside,
            Err(LooseFault::NeedsPrimitive) => Outcome::Unknown,
        }
    }
}

impl fmt::Display for Outcome {
    fn fmt<W: fmt::Write>(&self, f: &mut fmt::Formatter<W>) -> fmt::Result {
        match self {
            Outcome::Number(number) => match number.get() {
                Some(n) => write!(f, "{n}"),
                None => write!(f, "NaN"),
            },
            Outcome::Truth(truth) => write!(f, "{truth}"),
            Outcome::Outside => write!(f, "outside"),
            Outcome::Unordered => write!(f, "undefined"),
            Outcome::Unknown => write!(f, "unknown"),
        }
    }
}

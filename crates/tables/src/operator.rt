//! The operators of rows.

use crate::outcome::Outcome;
use js_core::Whole;
use js_values::Value;
use whole_ops::{BitOp, add, bits, div, less, loose, mul, not, pow, rem, same, sub, to_number};

/// An operator.
#[derive(Clone, Copy, PartialEq, Eq)]
pub enum Operator {
    Add,
    Sub,
    Mul,
    Div,
    Rem,
    Pow,
    Less,
    /// a binary operator on bits
    Bits(BitOp),
    /// the complement of the left operand
    Not,
    /// `===`
    Same,
    /// `==`
    Loose,
    /// the left operand, a string, as a number
    Number,
}

impl Operator {
    /// The operator of this name, if there is one: as the language writes it, or `number`.
    pub fn named(name: &str) -> Option<Operator> {
        match name {
            "+" => Some(Operator::Add),
            "-" => Some(Operator::Sub),
            "*" => Some(Operator::Mul),
            "/" => Some(Operator::Div),
            "%" => Some(Operator::Rem),
            "**" => Some(Operator::Pow),
            "<" => Some(Operator::Less),
            "~" => Some(Operator::Not),
            "===" => Some(Operator::Same),
            "==" => Some(Operator::Loose),
            "number" => Some(Operator::Number),
            _ => bit_operator_named(name),
        }
    }

    /// What the operator answers at two operands.
    pub fn answer(self, left: &Value, right: &Value) -> Outcome {
        match self {
            Operator::Same => Outcome::Truth(same(left, right)),
            Operator::Loose => Outcome::of_loose(loose(left, right)),
            Operator::Number => match left {
                Value::Text(text) => Outcome::of_outcome(to_number(text)),
                _ => Outcome::Unknown,
            },
            _ => match (left, right) {
                (Value::Num(a), Value::Num(b)) => self.answer_at_numbers(*a, *b),
                _ => Outcome::Unknown,
            },
        }
    }

    fn answer_at_numbers(self, a: Whole, b: Whole) -> Outcome {
        match self {
            Operator::Add => Outcome::of_outcome(add(a, b)),
            Operator::Sub => Outcome::of_outcome(sub(a, b)),
            Operator::Mul => Outcome::of_outcome(mul(a, b)),
            Operator::Div => Outcome::of_outcome(div(a, b)),
            Operator::Rem => Outcome::of_outcome(rem(a, b)),
            Operator::Pow => Outcome::of_outcome(pow(a, b)),
            Operator::Less => Outcome::of_order(less(a, b)),
            Operator::Bits(op) => Outcome::Number(bits(op, a, b)),
            Operator::Not => Outcome::Number(not(a)),
            Operator::Same | Operator::Loose | Operator::Number => Outcome::Unknown,
        }
    }
}

fn bit_operator_named(name: &str) -> Option<Operator> {
    match name {
        "&" => Some(Operator::Bits(BitOp::And)),
        "|" => Some(Operator::Bits(BitOp::Or)),
        "^" => Some(Operator::Bits(BitOp::Xor)),
        "<<" => Some(Operator::Bits(BitOp::Shl)),
        ">>" => Some(Operator::Bits(BitOp::Shr)),
        ">>>" => Some(Operator::Bits(BitOp::Ushr)),
        _ => None,
    }
}

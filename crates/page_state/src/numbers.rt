//! Operators on numbers (ECMA-262 5.1 sections 11.5 to 11.8 and 11.10).

ghost use Rattle.std.specs.Prelude.{◌≡◌};
ghost use Rattle.js_values.specs.declared.value.Value.TheVariants.{Num};
ghost use Rattle.page_meaning.specs.Act.{also};
ghost use Rattle.page_meaning.specs.Convert.{as_number, number_in, number_of as spec_number, to_number};
ghost use Rattle.page_meaning.specs.Errors.{settle};
ghost use Rattle.page_meaning.specs.Operators as spec;
ghost use Rattle.page_state.specs.Does.{Gives, itself};
ghost use Rattle.page_state.specs.Operating.{numeric, sense_of};

use crate::convert::number_of;
use crate::fault::Fault;
use crate::state::State;
use js_core::Whole;
use js_values::{Throw, Value};
use whole_ops::{BitOp, OpFault};

/// What an operator makes of a truth value.
#[derive(Clone, Copy)]
pub enum Sense {
    /// It is the answer.
    Plain,
    /// The answer is the other one.
    Negated,
}

impl Sense {
    /// The answer.
    pub fn of(self, truth: bool) -> bool
        ensures { result ≡ sense_of self truth }
    {
        match self {
            Sense::Plain => truth,
            Sense::Negated => !truth,
        }
    }
}

/// The operators at two numbers.
#[derive(Clone, Copy)]
pub enum NumberOp {
    Mul,
    Div,
    Rem,
    Add,
    Sub,
    /// An operator on their bits.
    Bits(BitOp),
    /// Whether the first is less, or not. Both are false where one of the two is NaN.
    Less(Sense),
}

/// The value of an operator at two numbers, or what is thrown.
pub fn apply(op: NumberOp, a: Whole, b: Whole) -> Result<Value, Throw>
    ensures { result ≡ numeric op a b }
{
    match op {
        NumberOp::Mul => as_value(whole_ops::mul(a, b)),
        NumberOp::Div => as_value(whole_ops::div(a, b)),
        NumberOp::Rem => as_value(whole_ops::rem(a, b)),
        NumberOp::Add => as_value(whole_ops::add(a, b)),
        NumberOp::Sub => as_value(whole_ops::sub(a, b)),
        NumberOp::Bits(op) => Ok(Value::Num(whole_ops::bits(op, a, b))),
        NumberOp::Less(sense) => Ok(Value::Bool(says(sense, whole_ops::less(a, b)))),
    }
}

// A number, or the error of a result that is none.
fn as_value(answer: Result<Whole, OpFault>) -> Result<Value, Throw>
    ensures { result ≡ as_number answer }
{
    match answer {
        Ok(number) => Ok(Value::Num(number)),
        Err(OpFault::Outside) => Err(Throw::OutOfRange),
    }
}

// What is made of a comparison that may tell nothing.
fn says(sense: Sense, answer: Option<bool>) -> bool
    ensures { result ≡ spec.says (sense_of sense) answer }
{
    match answer {
        Some(truth) => sense.of(truth),
        None => false,
    }
}

impl State {
    /// Both sides as numbers, the left one first, and then the operator at them (section 11.5).
    pub fn on_numbers(&mut self, op: NumberOp, left: &Value, right: &Value) -> Result<Value, Fault>
        ensures { Gives itself (λ calls. spec.on_numbers calls (numeric op) left.now right.now)
            self.old self.new result }
    {
        let a = self.to_number(left)?;
        self.with_right(op, a, right)
    }

    // The right side as a number, and then the operator.
    fn with_right(&mut self, op: NumberOp, a: Whole, right: &Value) -> Result<Value, Fault>
        ensures { Gives itself (λ calls. also (to_number calls right.now)
            (λ b. settle (numeric op a (number_in b)))) self.old self.new result }
    {
        let b = self.to_number(right)?;
        self.settle(apply(op, a, b))
    }

    /// Both of two primitive values as numbers, the left one first, and then the operator at them (section 11.8.5 step 3).
    pub fn as_numbers(&mut self, op: NumberOp, left: &Value, right: &Value) -> Result<Value, Fault>
        ensures { Gives itself (λ _. spec.as_numbers (numeric op) left.now right.now) self.old
            self.new result }
    {
        let a = self.primitive_number(left)?;
        self.with_primitive(op, a, right)
    }

    // The right one as a number, and then the operator.
    fn with_primitive(&mut self, op: NumberOp, a: Whole, right: &Value) -> Result<Value, Fault>
        ensures { Gives itself (λ _. also (settle (spec_number right.now))
            (λ b. settle (numeric op a (number_in b)))) self.old self.new result }
    {
        let number = self.primitive_number(right)?;
        self.settle(apply(op, a, number))
    }

    // The number of a primitive value.
    fn primitive_number(&mut self, value: &Value) -> Result<Whole, Fault>
        ensures { Gives Num (λ _. settle (spec_number value.now)) self.old self.new result }
    {
        match number_of(value) {
            Ok(number) => Ok(number),
            Err(what) => Err(self.raise(what)),
        }
    }

    /// The number, or the error of a result that is none.
    pub fn in_range(&mut self, answer: Result<Whole, OpFault>) -> Result<Whole, Fault>
        ensures { Gives Num (λ _. settle (as_number answer)) self.old self.new result }
    {
        match answer {
            Ok(number) => Ok(number),
            Err(OpFault::Outside) => Err(self.raise(Throw::OutOfRange)),
        }
    }
}

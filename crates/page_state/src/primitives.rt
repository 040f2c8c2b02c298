//! Operators on primitive values: sums, the order and `==` (ECMA-262 5.1 sections 11.6.1, 11.8.5 and 11.9.3).

ghost use Rattle.std.specs.Prelude.{◌≡◌, ◌++◌, ◌||◌, IfOk, length, nat_le};
ghost use Rattle.page_state.specs.declared.primitives.PairOp.TheVariants.{Equal};
ghost use Rattle.page_meaning.specs.Act.{also};
ghost use Rattle.page_meaning.specs.Convert.{a_number, operand_primitive, text_of as spec_text};
ghost use Rattle.page_meaning.specs.Errors.{settle};
ghost use Rattle.page_meaning.specs.Operators as spec;
ghost use Rattle.page_host.specs.HostNames.{text_limit, text_or_long};
ghost use Rattle.page_state.specs.Does.{Gives, itself};
ghost use Rattle.page_state.specs.Operating.{is_text, paired, sense_of};

use crate::convert::text_of;
use crate::fault::Fault;
use crate::numbers::{NumberOp, Sense};
use crate::state::State;
use js_core::{OutOfMemory, TEXT_LIMIT, Units};
use js_values::{Throw, Value};
use std::alloc::Global;
use whole_ops::{LooseFault, loose, text_less};

/// The operators whose sides both become primitive before either becomes more.
#[derive(Clone, Copy)]
pub enum PairOp {
    /// `+`
    Sum,
    /// `<`, or `>=` where it is negated.
    Less(Sense),
    /// `>`, or `<=` where it is negated.
    Greater(Sense),
    /// `==`, or `!=` where it is negated, of which an object was a side.
    Equal(Sense),
}

impl State {
    /// Both sides become primitive, the left one first, and then the operator is applied.
    pub fn on_primitives(&mut self, op: PairOp, left: &Value, right: &Value) -> Result<Value, Fault>
        ensures { Gives itself (λ calls. spec.on_primitives calls (paired op) left.now right.now)
            self.old self.new result }
    {
        let p = self.to_primitive(left)?;
        self.beside_primitive(op, &p, right)
    }

    // The right side becomes primitive, and then the operator is applied.
    fn beside_primitive(&mut self, op: PairOp, p: &Value, right: &Value) -> Result<Value, Fault>
        ensures { Gives itself (λ calls. also (operand_primitive calls a_number right.now)
            (paired op p.now)) self.old self.new result }
    {
        let q = self.to_primitive(right)?;
        self.pair(op, p, &q)
    }

    // The operator at two primitive values.
    fn pair(&mut self, op: PairOp, p: &Value, q: &Value) -> Result<Value, Fault>
        ensures { Gives itself (λ _. paired op p.now q.now) self.old self.new result }
    {
        match op {
            PairOp::Sum => self.sum(p, q),
            PairOp::Less(sense) => self.less(sense, p, q),
            PairOp::Greater(sense) => self.less(sense, q, p),
            PairOp::Equal(sense) => self.equal(sense, p, q),
        }
    }

    // The joined text where one of the two is a text (section 11.6.1).
    fn sum(&mut self, p: &Value, q: &Value) -> Result<Value, Fault>
        ensures { Gives itself (λ _. spec.sum_of p.now q.now) self.old self.new result }
    {
        if has_text(p, q) {
            self.sum_of_texts(p, q)
        } else {
            self.as_numbers(NumberOp::Add, p, q)
        }
    }

    // The texts of two primitive values, joined.
    fn sum_of_texts(&mut self, p: &Value, q: &Value) -> Result<Value, Fault>
        ensures { Gives itself (λ _. settle (text_or_long
            (spec_text p.now ++ spec_text q.now))) self.old self.new result }
    {
        let answer = joined_text(self.alloc(), p, q)?;
        self.settle(answer)
    }

    // Whether the first of two primitive values is less, or not (section 11.8.5).
    fn less(&mut self, sense: Sense, p: &Value, q: &Value) -> Result<Value, Fault>
        ensures { Gives itself (λ _. spec.less_of (sense_of sense) p.now q.now) self.old self.new
            result }
    {
        match p {
            Value::Text(first) => match q {
                Value::Text(second) => Ok(Value::Bool(sense.of(text_less(first, second)))),
                Value::Undefined
                | Value::Null
                | Value::Bool(_)
                | Value::Num(_)
                | Value::Object(_) => self.as_numbers(NumberOp::Less(sense), p, q),
            },
            Value::Undefined | Value::Null | Value::Bool(_) | Value::Num(_) | Value::Object(_) =>
                self.as_numbers(NumberOp::Less(sense), p, q),
        }
    }

    // `==` of two primitive values.
    fn equal(&mut self, sense: Sense, p: &Value, q: &Value) -> Result<Value, Fault>
        ensures { Gives itself (λ _. paired (Equal sense) p.now q.now) self.old self.new result }
    {
        match loose(p, q) {
            Ok(truth) => Ok(Value::Bool(sense.of(truth))),
            Err(LooseFault::NeedsPrimitive) => Ok(Value::Undefined),
            Err(LooseFault::Outside) => Err(self.raise(Throw::OutOfRange)),
        }
    }

    /// `==`, where an object beside a primitive value is converted and compared once more (section 11.9.3).
    pub fn loosely(&mut self, sense: Sense, left: &Value, right: &Value) -> Result<Value, Fault>
        ensures { Gives itself (λ calls. spec.loosely calls (sense_of sense) left.now right.now)
            self.old self.new result }
    {
        match loose(left, right) {
            Ok(truth) => Ok(Value::Bool(sense.of(truth))),
            Err(LooseFault::NeedsPrimitive) => {
                self.on_primitives(PairOp::Equal(sense), left, right)
            }
            Err(LooseFault::Outside) => Err(self.raise(Throw::OutOfRange)),
        }
    }
}

// Whether one of the two is a text.
fn has_text(p: &Value, q: &Value) -> bool
    ensures { result ≡ (is_text p.now || is_text q.now) }
{
    is_text(p) || is_text(q)
}

fn is_text(value: &Value) -> bool
    ensures { result ≡ is_text value.now }
{
    match value {
        Value::Text(_) => true,
        Value::Undefined | Value::Null | Value::Bool(_) | Value::Num(_) | Value::Object(_) => false,
    }
}

// The joined texts of two values, or the error where that is too long.
fn joined_text(alloc: Global, p: &Value, q: &Value) -> Result<Result<Value, Throw>, OutOfMemory>
    ensures { IfOk result (λ answer. answer ≡ text_or_long
        (spec_text p.now ++ spec_text q.now)) }
{
    let left = text_of(alloc, p)?;
    let right = text_of(alloc, q)?;
    join(alloc, left.as_slice(), right.as_slice())
}

// The joined text, or the error where it is too long, for which no memory is taken.
fn join(alloc: Global, left: &[u16], right: &[u16]) -> Result<Result<Value, Throw>, OutOfMemory>
    ensures { IfOk result (λ answer. answer ≡ text_or_long (left.now ++ right.now)) }
{
    if are_short(left, right) {
        Ok(Ok(Value::Text(both(alloc, left, right)?)))
    } else {
        Ok(Err(Throw::TextTooLong))
    }
}

/// Whether two texts may be joined: how many units a text may have.
#[tactic(auto, using(crate::proofs::Joined::both_short), unfolding(page_host::specs::HostNames::text_limit))]
pub fn are_short(left: &[u16], right: &[u16]) -> bool
    ensures { result ≡ nat_le (length (left.now ++ right.now)) text_limit }
{
    if left.len() > TEXT_LIMIT as usize {
        return false;
    }
    right.len() <= TEXT_LIMIT as usize - left.len()
}

fn both(alloc: Global, left: &[u16], right: &[u16]) -> Result<Units, OutOfMemory>
    ensures { IfOk result (λ text. text ≡ left.now ++ right.now) }
{
    let mut units = Vec::new(alloc);
    units.extend_from_slice(left)?;
    units.extend_from_slice(right)?;
    Units::of(alloc, units.as_slice())
}

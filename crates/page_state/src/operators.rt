//! Operators on values (ECMA-262 5.1 sections 11.4 to 11.10).

ghost use Rattle.std.specs.Prelude.{◌≡◌, Some, pos};
ghost use Rattle.js_core.specs.declared.operators.UnaryOp.TheVariants as unary;
ghost use Rattle.page_meaning.specs.Convert.{as_number};
ghost use Rattle.page_meaning.specs.Errors.{settle};
ghost use Rattle.page_meaning.specs.Operators as spec;
ghost use Rattle.whole_ops.specs.Arithmetic.{whole_sub};
ghost use Rattle.page_state.specs.Does.{Gives, itself};

use crate::fault::Fault;
use crate::numbers::{NumberOp, Sense};
use crate::primitives::PairOp;
use crate::state::State;
use js_core::{BinaryOp, UnaryOp, Whole};
use js_values::Value;
use whole_ops::{BitOp, is_true, same, sub};

impl State {
    /// A binary operator at the values of its sides.
    pub fn operate(&mut self, op: BinaryOp, left: &Value, right: &Value) -> Result<Value, Fault>
        ensures { Gives itself (λ calls. spec.operate calls op left.now right.now) self.old self.new
            result }
    {
        match op {
            BinaryOp::Mul => self.on_numbers(NumberOp::Mul, left, right),
            BinaryOp::Div => self.on_numbers(NumberOp::Div, left, right),
            BinaryOp::Rem => self.on_numbers(NumberOp::Rem, left, right),
            BinaryOp::Add => self.on_primitives(PairOp::Sum, left, right),
            BinaryOp::Sub => self.on_numbers(NumberOp::Sub, left, right),
            BinaryOp::Shl => self.on_bits(BitOp::Shl, left, right),
            BinaryOp::Shr => self.on_bits(BitOp::Shr, left, right),
            BinaryOp::Ushr => self.on_bits(BitOp::Ushr, left, right),
            BinaryOp::Less => self.on_primitives(PairOp::Less(Sense::Plain), left, right),
            BinaryOp::Greater => self.on_primitives(PairOp::Greater(Sense::Plain), left, right),
            BinaryOp::LessEq => self.on_primitives(PairOp::Greater(Sense::Negated), left, right),
            BinaryOp::GreaterEq => self.on_primitives(PairOp::Less(Sense::Negated), left, right),
            BinaryOp::InstanceOf => self.instance_of(left, right),
            BinaryOp::Within => self.is_within(left, right),
            BinaryOp::Equal => self.loosely(Sense::Plain, left, right),
            BinaryOp::Unequal => self.loosely(Sense::Negated, left, right),
            BinaryOp::Same => Ok(Value::Bool(same(left, right))),
            BinaryOp::NotSame => Ok(Value::Bool(!same(left, right))),
            BinaryOp::BitAnd => self.on_bits(BitOp::And, left, right),
            BinaryOp::BitXor => self.on_bits(BitOp::Xor, left, right),
            BinaryOp::BitOr => self.on_bits(BitOp::Or, left, right),
        }
    }

    fn on_bits(&mut self, op: BitOp, left: &Value, right: &Value) -> Result<Value, Fault>
        ensures { Gives itself (λ calls. spec.on_bits calls op left.now right.now) self.old self.new
            result }
    {
        self.on_numbers(NumberOp::Bits(op), left, right)
    }

    /// A unary operator at a value. `delete` of a value that is no reference gives true.
    pub fn operate_one(&mut self, op: UnaryOp, value: &Value) -> Result<Value, Fault>
        ensures { Gives itself (λ calls. spec.operate_one calls op value.now) self.old self.new
            result }
    {
        match op {
            UnaryOp::Delete => Ok(Value::Bool(true)),
            UnaryOp::Void => Ok(Value::Undefined),
            UnaryOp::Typeof => Ok(Value::Text(self.type_text(value)?)),
            UnaryOp::Plus => self.plus(value),
            UnaryOp::Minus => self.minus(value),
            UnaryOp::BitNot => self.bit_not(value),
            UnaryOp::Not => Ok(Value::Bool(!is_true(value))),
        }
    }

    // Unary `+` (section 11.4.6).
    fn plus(&mut self, value: &Value) -> Result<Value, Fault>
        ensures { Gives itself (λ calls. spec.operate_one calls unary.Plus value.now) self.old
            self.new result }
    {
        let number = self.to_number(value)?;
        Ok(Value::Num(number))
    }

    // Unary `-` (section 11.4.7).
    fn minus(&mut self, value: &Value) -> Result<Value, Fault>
        ensures { Gives itself (λ calls. spec.operate_one calls unary.Minus value.now) self.old
            self.new result }
    {
        let number = self.to_number(value)?;
        self.negated(number)
    }

    // Zero less the number.
    fn negated(&mut self, number: Whole) -> Result<Value, Fault>
        ensures { Gives itself (λ _. settle (as_number (whole_sub (Some (pos 0)) number))) self.old
            self.new result }
    {
        let negated = self.in_range(sub(zero(), number))?;
        Ok(Value::Num(negated))
    }

    // `~` (section 11.4.8).
    fn bit_not(&mut self, value: &Value) -> Result<Value, Fault>
        ensures { Gives itself (λ calls. spec.operate_one calls unary.BitNot value.now) self.old
            self.new result }
    {
        let number = self.to_number(value)?;
        Ok(Value::Num(whole_ops::not(number)))
    }
}

fn zero() -> Whole
    ensures { result ≡ Some (pos 0) }
{
    Whole::new(0).unwrap()
}

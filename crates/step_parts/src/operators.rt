//! Operators at two values that give their value at once (ECMA-262 5.1 sections 11.5 to 11.10).

ghost use Rattle.std.specs.Prelude.{◌≡◌, IfSome, Ok, not};
ghost use Rattle.js_values.specs.declared.value.Value.TheVariants.{Num};
ghost use Rattle.page_meaning.specs.declared.signal.Signal.TheVariants.{Value as Val};
ghost use Rattle.page_meaning.specs.Convert.{as_number};
ghost use Rattle.page_meaning.specs.Operators.{operate, says, yes_or_no};
ghost use Rattle.page_meaning.specs.Store.{Store};
ghost use Rattle.page_state.specs.Does.{Does};

use js_core::{BinaryOp, Whole};
use js_values::Value;
use whole_ops::{BitOp, OpFault, bits, loose, same};

/// The value of an operator at two values; `None` where it throws, and where it would have to convert or to ask an object.
pub(crate) fn operated(op: BinaryOp, left: &Value, right: &Value) -> Option<Value>
    ensures { IfSome result (λ v. (s : Store) →
        Does (λ calls. operate calls op left.now right.now) s (Val v) s) }
{
    match op {
        BinaryOp::Same => Some(Value::Bool(same(left, right))),
        BinaryOp::NotSame => Some(Value::Bool(!same(left, right))),
        BinaryOp::Equal => match loose(left, right) {
            Ok(truth) => Some(Value::Bool(truth)),
            Err(_) => None,
        },
        BinaryOp::Unequal => match loose(left, right) {
            Ok(truth) => Some(Value::Bool(!truth)),
            Err(_) => None,
        },
        _ => match (left, right) {
            (Value::Num(a), Value::Num(b)) => on_numbers(op, *a, *b),
            _ => None,
        },
    }
}

// The value of an operator at two numbers.
#[tactic(auto, using(crate::proofs::Combining::settled))]
fn on_numbers(op: BinaryOp, a: Whole, b: Whole) -> Option<Value>
    ensures { IfSome result (λ v. (s : Store) →
        Does (λ calls. operate calls op (Num a) (Num b)) s (Val v) s) }
{
    match op {
        BinaryOp::Mul => number(whole_ops::mul(a, b)),
        BinaryOp::Div => number(whole_ops::div(a, b)),
        BinaryOp::Rem => number(whole_ops::rem(a, b)),
        BinaryOp::Add => number(whole_ops::add(a, b)),
        BinaryOp::Sub => number(whole_ops::sub(a, b)),
        BinaryOp::Shl => Some(Value::Num(bits(BitOp::Shl, a, b))),
        BinaryOp::Shr => Some(Value::Num(bits(BitOp::Shr, a, b))),
        BinaryOp::Ushr => Some(Value::Num(bits(BitOp::Ushr, a, b))),
        BinaryOp::BitAnd => Some(Value::Num(bits(BitOp::And, a, b))),
        BinaryOp::BitXor => Some(Value::Num(bits(BitOp::Xor, a, b))),
        BinaryOp::BitOr => Some(Value::Num(bits(BitOp::Or, a, b))),
        BinaryOp::Less => Some(Value::Bool(holds(whole_ops::less(a, b)))),
        BinaryOp::Greater => Some(Value::Bool(holds(whole_ops::less(b, a)))),
        BinaryOp::LessEq => Some(Value::Bool(fails(whole_ops::less(b, a)))),
        BinaryOp::GreaterEq => Some(Value::Bool(fails(whole_ops::less(a, b)))),
        _ => None,
    }
}

// A number, where it is in range.
fn number(answer: Result<Whole, OpFault>) -> Option<Value>
    ensures { IfSome result (λ v. as_number answer ≡ Ok v) }
{
    match answer {
        Ok(number) => Some(Value::Num(number)),
        Err(OpFault::Outside) => None,
    }
}

// Whether a comparison says so. One with NaN says nothing.
fn holds(answer: Option<bool>) -> bool
    ensures { result ≡ says yes_or_no answer }
{
    match answer {
        Some(truth) => truth,
        None => false,
    }
}

// Whether a comparison says that it is not so.
fn fails(answer: Option<bool>) -> bool
    ensures { result ≡ says not answer }
{
    match answer {
        Some(truth) => !truth,
        None => false,
    }
}

//! Conversions of values that need no object's methods.

ghost use Rattle.std.specs.Prelude.{◌≡◌, IfOk};
ghost use Rattle.whole_ops.specs.Conversions as spec;
ghost use Rattle.whole_ops.specs.Equality as equality;

use crate::fault::{LooseFault, OpFault};
use crate::numeral::to_number;
use crate::text::to_text;
use js_core::{OutOfMemory, Units, Whole, ascii_text};
use js_values::Value;
use std::alloc::Global;

/// The number of the value (ECMA-262 5.1 section 9.3). An object answers `NeedsPrimitive`, and a string that writes a
/// number that is none of the language's `Outside`.
pub fn number_of(value: &Value) -> Result<Whole, LooseFault>
    ensures { result ≡ spec.number_of value.now }
{
    match value {
        Value::Undefined => Ok(Whole::nan()),
        Value::Null => Ok(number_of_truth(false)),
        Value::Bool(truth) => Ok(number_of_truth(*truth)),
        Value::Num(number) => Ok(*number),
        Value::Text(text) => match to_number(text) {
            Ok(number) => Ok(number),
            Err(OpFault::Outside) => Err(LooseFault::Outside),
        },
        Value::Object(_) => Err(LooseFault::NeedsPrimitive),
    }
}

/// The text of the value (section 9.8), or `None` exactly for an object, which has to be made a primitive value first.
pub fn text_of(alloc: Global, value: &Value) -> Result<Option<Units>, OutOfMemory>
    ensures { IfOk result (λ text. text ≡ spec.text_of_value value.now) }
{
    match value {
        Value::Undefined => Ok(Some(ascii_text(alloc, b"undefined")?)),
        Value::Null => Ok(Some(ascii_text(alloc, b"null")?)),
        Value::Bool(true) => Ok(Some(ascii_text(alloc, b"true")?)),
        Value::Bool(false) => Ok(Some(ascii_text(alloc, b"false")?)),
        Value::Num(number) => Ok(Some(to_text(alloc, *number)?)),
        Value::Text(text) => Ok(Some(text.clone()?)),
        Value::Object(_) => Ok(None),
    }
}

/// Whether the value counts as true (section 9.2).
pub fn is_true(value: &Value) -> bool
    ensures { result ≡ spec.is_true value.now }
{
    match value {
        Value::Undefined | Value::Null => false,
        Value::Bool(truth) => *truth,
        Value::Num(number) => is_true_number(*number),
        Value::Text(text) => is_true_text(text.as_slice()),
        Value::Object(_) => true,
    }
}

fn is_true_number(number: Whole) -> bool
    ensures { result ≡ spec.is_true_number number }
{
    match number.get() {
        Some(n) => n != 0,
        None => false,
    }
}

fn is_true_text(units: &[u16]) -> bool
    ensures { result ≡ spec.is_true_text units.now }
{
    match units {
        [] => false,
        [_, ..] => true,
    }
}

/// A boolean as a number (section 9.3): true is 1 and false 0.
pub(crate) fn number_of_truth(truth: bool) -> Whole
    ensures { result ≡ equality.number_of_truth truth }
{
    Whole::new(i64::from(truth)).unwrap()
}

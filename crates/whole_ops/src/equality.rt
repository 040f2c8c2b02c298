//! Equality of values.

ghost use Rattle.std.specs.Prelude.{◌≡◌};
ghost use Rattle.whole_ops.specs.Equality as spec;
ghost use Rattle.whole_ops.specs.Numeral.{to_whole};

use crate::conversions::number_of_truth;
use crate::fault::{LooseFault, OpFault};
use crate::numeral::to_number;
use js_core::{Units, Whole};
use js_values::{ObjId, Value};

/// `===` (ECMA-262 5.1 section 11.9.6).
pub fn same(a: &Value, b: &Value) -> bool
    ensures { result ≡ spec.same_of a.now b.now }
{
    match a {
        Value::Undefined => matches!(b, Value::Undefined),
        Value::Null => matches!(b, Value::Null),
        Value::Bool(truth) => matches!(b, Value::Bool(other) if truth == other),
        Value::Num(number) => matches!(b, Value::Num(other) if same_number(*number, *other)),
        Value::Text(text) => matches!(b, Value::Text(other) if text == other),
        Value::Object(at) => matches!(b, Value::Object(other) if at == other),
    }
}

/// `==` (section 11.9.3). It answers the same with the sides exchanged.
pub fn loose(a: &Value, b: &Value) -> Result<bool, LooseFault>
    ensures value { result ≡ spec.loose_of a.now b.now }
    ensures symmetric { result ≡ spec.loose_of b.now a.now }
{
    match a {
        Value::Undefined | Value::Null => Ok(matches!(b, Value::Undefined | Value::Null)),
        Value::Bool(truth) => loose_number(number_of_truth(*truth), b),
        Value::Num(number) => loose_number(*number, b),
        Value::Text(text) => loose_text(text, b),
        Value::Object(at) => loose_object(*at, b),
    }
}

/// `==` of a number and a value.
fn loose_number(a: Whole, b: &Value) -> Result<bool, LooseFault>
    ensures { result ≡ spec.loose_between (Value.Num a) (spec.without_boolean b.now) }
{
    match b {
        Value::Undefined | Value::Null => Ok(false),
        Value::Bool(truth) => Ok(same_number(a, number_of_truth(*truth))),
        Value::Num(number) => Ok(same_number(a, *number)),
        Value::Text(text) => against_number(a, text),
        Value::Object(_) => Err(LooseFault::NeedsPrimitive),
    }
}

/// `==` of a string and a value.
fn loose_text(a: &Units, b: &Value) -> Result<bool, LooseFault>
    ensures { result ≡ spec.loose_between (Value.Text a.now) (spec.without_boolean b.now) }
{
    match b {
        Value::Undefined | Value::Null => Ok(false),
        Value::Bool(truth) => against_number(number_of_truth(*truth), a),
        Value::Num(number) => against_number(*number, a),
        Value::Text(text) => Ok(a == text),
        Value::Object(_) => Err(LooseFault::NeedsPrimitive),
    }
}

/// `==` of an object and a value.
fn loose_object(a: ObjId, b: &Value) -> Result<bool, LooseFault>
    ensures { result ≡ spec.loose_between (Value.Object a) (spec.without_boolean b.now) }
{
    match b {
        Value::Undefined | Value::Null => Ok(false),
        Value::Bool(_) | Value::Num(_) | Value::Text(_) => Err(LooseFault::NeedsPrimitive),
        Value::Object(at) => Ok(a == *at),
    }
}

/// `==` of a number and a string.
fn against_number(number: Whole, text: &Units) -> Result<bool, LooseFault>
    ensures { result ≡ spec.against_number number (to_whole text.now) }
{
    match to_number(text) {
        Ok(other) => Ok(same_number(number, other)),
        Err(OpFault::Outside) => Err(LooseFault::Outside),
    }
}

/// Whether the two are the same number. NaN is none.
fn same_number(a: Whole, b: Whole) -> bool
    ensures { result ≡ spec.same_number a b }
{
    match (a.get(), b.get()) {
        (Some(x), Some(y)) => x == y,
        _ => false,
    }
}

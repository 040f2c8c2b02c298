//! Positions in a text (ECMA-262 5.1 sections 9.4 and 15.5.4).

ghost use Rattle.std.specs.Prelude.{◌≡◌, ◌≤◌};
ghost use Rattle.page_meaning.specs.StringRows as spec;

use js_core::Whole;
use js_values::Value;

/// The number as a whole number: NaN counts as 0 (section 9.4).
pub fn to_integer(number: Whole) -> i64
    ensures { result ≡ spec.to_integer number }
{
    match number.get() {
        Some(n) => n,
        None => 0,
    }
}

/// The position, kept between 0 and the length.
pub fn within(length: usize, position: i64) -> usize
    ensures value { result ≡ spec.within length position }
    ensures inside { result ≤ length }
{
    if position < 0 {
        return 0;
    }
    length.min(position as usize)
}

/// The same, where a position below 0 counts from the end.
pub fn from_either_end(length: usize, position: i64) -> usize
    ensures value { result ≡ spec.from_either_end length position }
    ensures inside { result ≤ length }
{
    if position < 0 {
        return length.saturating_sub(position.unsigned_abs() as usize);
    }
    length.min(position as usize)
}

/// The place that an argument came to, or the length where it is undefined.
pub fn end_of(length: usize, value: &Value, place: usize) -> usize
    ensures { result ≡ spec.end_of length value.now place }
{
    match value {
        Value::Undefined => length,
        Value::Null | Value::Bool(_) | Value::Num(_) | Value::Text(_) | Value::Object(_) => place,
    }
}

/// Where a search from the end begins: at the end where the position is NaN (section 15.5.4.8).
pub fn last_start(length: usize, position: Whole) -> usize
    ensures value { result ≡ spec.last_start length position }
    ensures inside { result ≤ length }
{
    match position.get() {
        Some(n) => within(length, n),
        None => length,
    }
}

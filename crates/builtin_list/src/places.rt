//! Places in an array that numbers give (ECMA-262 5.1 section 15.4.4).

ghost use Rattle.std.specs.Prelude.{◌≡◌, ◌≤◌, min};
ghost use Rattle.page_meaning.specs.ListRows as spec;

use js_core::Whole;

/// A place in an array of this length, from its end where the number is negative.
pub fn place_in(length: u64, number: Whole) -> u64
    ensures place { result ≡ spec.place_in length number }
    ensures inside { result ≤ length }
{
    match number.get() {
        None => 0,
        Some(n) if n >= 0 => least(n as u64, length),
        Some(n) => length.saturating_sub(n.unsigned_abs()),
    }
}

/// How many of so many elements a number asks for.
pub fn count_in(length: u64, number: Whole) -> u64
    ensures count { result ≡ spec.count_in length number }
    ensures inside { result ≤ length }
{
    match number.get() {
        Some(n) if n >= 0 => least(n as u64, length),
        _ => 0,
    }
}

/// How many elements of an array there are up to the place that a number gives.
pub fn count_to(length: u64, number: Whole) -> u64
    ensures { result ≡ spec.count_to length number }
{
    match number.get() {
        None => least(1, length),
        Some(n) if n >= 0 => least(n as u64 + 1, length),
        Some(n) => length.saturating_sub(n.unsigned_abs() - 1),
    }
}

fn least(a: u64, b: u64) -> u64
    ensures { result ≡ min a b }
{
    if a < b { a } else { b }
}

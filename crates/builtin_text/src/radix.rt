//! Numbers as texts in a radix (ECMA-262 5.1 section 15.7.4.2).

ghost use Rattle.std.specs.Prelude.{◌≡◌, ◌++◌, ◌≤◌, ◌<◌, drop, false, IfOk, IfSome, OnOk, Some};
ghost use Rattle.std.specs.Fmt.{digit_glyph, digits};
ghost use Rattle.page_meaning.specs.NumberRows as spec;

use js_core::{OutOfMemory, Units, Whole, ascii_text};
use js_values::Value;
use std::alloc::Global;

/// The number as a radix, or `None` exactly where it is none.
pub fn radix_in_range(number: Whole) -> Option<u64>
    ensures value { result ≡ spec.radix_in_range number }
    ensures low { IfSome result (λ radix. 2 ≤ radix) }
    ensures high { IfSome result (λ radix. radix ≤ 36) }
{
    match number.get() {
        Some(n) if n >= 2 && n <= 36 => Some(n as u64),
        _ => None,
    }
}

/// The radix that an argument asks for, where its number is this.
pub fn radix_of(value: &Value, number: Whole) -> Option<u64>
    ensures value { result ≡ spec.radix_of value.now number }
    ensures low { IfSome result (λ radix. 2 ≤ radix) }
    ensures high { IfSome result (λ radix. radix ≤ 36) }
{
    match value {
        Value::Undefined => Some(10),
        Value::Null | Value::Bool(_) | Value::Num(_) | Value::Text(_) | Value::Object(_) =>
            radix_in_range(number),
    }
}

/// The text of the number in the radix.
pub fn text_in_radix(alloc: Global, radix: u64, number: Whole) -> Result<Units, OutOfMemory>
    requires low { 2 ≤ radix }
    requires high { radix ≤ 36 }
    ensures { IfOk result (λ text. text ≡ spec.text_in_radix radix number) }
{
    match number.get() {
        Some(n) => signed_text(alloc, radix, n),
        None => ascii_text(alloc, b"NaN"),
    }
}

fn signed_text(alloc: Global, radix: u64, number: i64) -> Result<Units, OutOfMemory>
    requires low { 2 ≤ radix }
    requires high { radix ≤ 36 }
    ensures { IfOk result (λ text. text ≡ spec.text_in_radix radix (Some number)) }
{
    let mut units = Vec::new(alloc);
    if number < 0 {
        units.push(u16::from(b'-'))?;
    }
    push_digits(radix, number.unsigned_abs(), &mut units)?;
    Units::of(alloc, units.as_slice())
}

// Appends the digits of the number, which are found from the last one on.
fn push_digits(radix: u64, number: u64, out: &mut Vec<u16>) -> Result<(), OutOfMemory>
    requires low { 2 ≤ radix }
    requires high { radix ≤ 36 }
    ensures { OnOk result (out.new.items ≡ out.old.items ++ digits radix false number) }
{
    let mut units = [0; 64];
    let start = write_digits(radix, number, &mut units);
    out.extend_from_slice(&units[start..])?;
    Ok(())
}

// Writes the digits at the end of the array, and tells where they begin.
fn write_digits(radix: u64, number: u64, out: &mut [u16; 64]) -> usize
    requires low { 2 ≤ radix }
    requires high { radix ≤ 36 }
    ensures inside { result ≤ 64 }
    ensures value { drop result out.new ≡ digits radix false number }
{
    let mut start = 64;
    let mut rest = number;
    while start > 0 {
        start -= 1;
        out[start] = digit_unit(rest % radix);
        rest /= radix;
        if rest == 0 {
            break;
        }
    }
    start
}

// The digit of a number: above 9 a small letter.
fn digit_unit(number: u64) -> u16
    requires { number < 36 }
    ensures { result ≡ digit_glyph false number }
{
    if number < 10 {
        48 + number as u16
    } else {
        87 + number as u16
    }
}

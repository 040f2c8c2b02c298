//! The number that a text writes.

ghost use Rattle.std.specs.Prelude.{◌≡◌, option_copied};
ghost use Rattle.js_core.specs.Whole.{nan};
ghost use Rattle.whole_ops.specs.Arithmetic.{Outcome};
ghost use Rattle.whole_ops.specs.Grammar.{Writes};
ghost use Rattle.whole_ops.specs.Numeral as spec;

use crate::arithmetic::whole_or_outside;
use crate::digits::{
    DECIMAL, HEXADECIMAL, are_digits, begins_with_digit, behind_digits, size_in_range,
};
use crate::fault::OpFault;
use crate::white_space::trimmed;
use js_core::{Units, Whole};

/// `Infinity`
const INFINITY: [u16; 8] = [
    b'I' as u16,
    b'n' as u16,
    b'f' as u16,
    b'i' as u16,
    b'n' as u16,
    b'i' as u16,
    b't' as u16,
    b'y' as u16,
];

/// The number that the text writes (ECMA-262 5.1 section 9.3.1), in time linear in the text. White space round it does
/// not count. The empty text is 0; an optional sign and decimal digits, or `0x` or `0X` and hexadecimal digits, are
/// their number, or `Outside` where that is out of range; a decimal with a point, an exponent or `Infinity` is
/// `Outside`, also where its value is whole; and all else is NaN. Where the standard has -0 it is 0. So it is what the
/// grammar gives where the text is a StringNumericLiteral, and NaN where it is none.
#[tactic(auto, unfolding(crate::specs::Numeral::to_whole))]
pub fn to_number(text: &Units) -> Result<Whole, OpFault>
    ensures value { result ≡ spec.to_whole text.now }
    ensures written { (gives : Outcome) → Writes text.now gives → result ≡ gives }
    ensures nan { ((gives : Outcome) → Writes text.now gives → ⊥) → result ≡ Ok nan }
{
    literal(trimmed(text.as_slice()))
}

/// The number of a text without white space round it.
#[tactic(auto, unfolding(crate::specs::Numeral::literal_of))]
fn literal(units: &[u16]) -> Result<Whole, OpFault>
    ensures { result ≡ spec.literal_of units.now }
{
    if units.is_empty() {
        return whole_or_outside(0);
    }
    match behind_hex_prefix(units) {
        Some(digits) => hexadecimal(digits),
        None => decimal(begins_with_minus(units), without_sign(units)),
    }
}

#[tactic(auto, unfolding(crate::specs::Numeral::hexadecimal_of))]
fn hexadecimal(units: &[u16]) -> Result<Whole, OpFault>
    ensures { result ≡ spec.hexadecimal_of units.now }
{
    if !are_digits(HEXADECIMAL, units) {
        return Ok(Whole::nan());
    }
    match size_in_range(HEXADECIMAL, units) {
        Some(size) => whole_or_outside(size as i64),
        None => Err(OpFault::Outside),
    }
}

#[tactic(auto, unfolding(crate::specs::Numeral::decimal_of))]
fn decimal(minus: bool, units: &[u16]) -> Result<Whole, OpFault>
    ensures { result ≡ spec.decimal_of minus units.now }
{
    if !are_digits(DECIMAL, units) {
        return if is_decimal(units) {
            Err(OpFault::Outside)
        } else {
            Ok(Whole::nan())
        };
    }
    match size_in_range(DECIMAL, units) {
        Some(size) if minus => whole_or_outside(-(size as i64)),
        Some(size) => whole_or_outside(size as i64),
        None => Err(OpFault::Outside),
    }
}

/// Whether the units are a decimal without a sign.
#[tactic(auto, unfolding(crate::specs::Numeral::is_decimal))]
fn is_decimal(units: &[u16]) -> bool
    ensures { result ≡ spec.is_decimal units.now }
{
    units == INFINITY.as_slice()
        || goes_on_as_decimal(begins_with_digit(units), behind_digits(units))
}

/// Whether the units may follow the digits before a point, of which there are some or not.
#[tactic(auto, unfolding(crate::specs::Numeral::goes_on_as_decimal))]
fn goes_on_as_decimal(some: bool, units: &[u16]) -> bool
    ensures { result ≡ spec.goes_on_as_decimal some units.now }
{
    let [unit, rest @ ..] = units else {
        return some;
    };
    if *unit == u16::from(b'.') {
        (some || begins_with_digit(rest)) && is_exponent(behind_digits(rest))
    } else {
        some && is_exponent(units)
    }
}

/// Whether the units are an exponent or nothing.
#[tactic(auto, unfolding(crate::specs::Numeral::is_exponent))]
fn is_exponent(units: &[u16]) -> bool
    ensures { result ≡ spec.is_exponent units.now }
{
    let [unit, rest @ ..] = units else {
        return true;
    };
    (*unit == u16::from(b'e') || *unit == u16::from(b'E'))
        && are_digits(DECIMAL, without_sign(rest))
}

fn begins_with_minus(units: &[u16]) -> bool
    ensures { result ≡ spec.begins_with_minus units.now }
{
    match units {
        [] => false,
        [unit, ..] => *unit == u16::from(b'-'),
    }
}

/// What stands behind a sign, or all units where they begin with none.
fn without_sign(units: &[u16]) -> &[u16]
    ensures { result.now ≡ spec.without_sign units.now }
{
    match units {
        [unit, rest @ ..] if *unit == u16::from(b'+') || *unit == u16::from(b'-') => rest,
        _ => units,
    }
}

/// What stands behind `0x` or `0X`, if the units begin so.
fn behind_hex_prefix(units: &[u16]) -> Option<&[u16]>
    ensures { option_copied result ≡ spec.behind_hex_prefix units.now }
{
    let [zero, mark, rest @ ..] = units else {
        return None;
    };
    let has_mark = *mark == u16::from(b'x') || *mark == u16::from(b'X');
    if *zero == u16::from(b'0') && has_mark {
        Some(rest)
    } else {
        None
    }
}

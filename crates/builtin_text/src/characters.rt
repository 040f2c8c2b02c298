//! Units of a text (ECMA-262 5.1 sections 9.7, 15.5.4.4, 15.5.4.5, 15.5.4.16 and 15.5.4.18).

ghost use Rattle.std.specs.Prelude.{◌≡◌, IfOk, map, option_map, option_to_list, pos};
ghost use Rattle.std.specs.Char as char;
ghost use Rattle.page_meaning.specs.StringRows as spec;

use crate::positions::to_integer;
use js_core::{OutOfMemory, Units, Whole};
use std::alloc::Global;

/// The number as a unit (section 9.7).
pub fn to_uint16(number: Whole) -> u16
    ensures { result ≡ spec.to_uint16 number }
{
    match number.get() {
        Some(n) => n.rem_euclid(1 << 16) as u16,
        None => 0,
    }
}

/// The unit at the position, if there is one; NaN counts as 0.
pub fn unit_at(units: &[u16], position: Whole) -> Option<u16>
    ensures { result ≡ spec.unit_of units.now (spec.to_integer position) }
{
    unit_of(units, to_integer(position))
}

fn unit_of(units: &[u16], position: i64) -> Option<u16>
    ensures { result ≡ spec.unit_of units.now position }
{
    if position < 0 {
        return None;
    }
    units.get(position as usize).copied()
}

/// The text of a unit, and the empty text of none.
pub fn unit_text(alloc: Global, unit: Option<u16>) -> Result<Units, OutOfMemory>
    ensures { IfOk result (λ text. text ≡ option_to_list unit) }
{
    match unit {
        Some(unit) => Units::of(alloc, &[unit]),
        None => Units::of(alloc, &[]),
    }
}

/// The number of a unit, and NaN of none.
pub fn unit_number(unit: Option<u16>) -> Whole
    ensures { result ≡ option_map (λ u. pos u) unit }
{
    match unit {
        Some(unit) => Whole::new(i64::from(unit)).unwrap(),
        None => Whole::nan(),
    }
}

/// The units with small ASCII letters in place of large ones (section 15.5.4.16).
pub fn lower_case(alloc: Global, units: &[u16]) -> Result<Vec<u16>, OutOfMemory>
    ensures { IfOk result (λ small. small.items ≡ map char.to_ascii_lowercase units.now) }
{
    let mut small = Vec::new(alloc);
    for unit in units {
        small.push(small_unit(*unit))?;
    }
    Ok(small)
}

/// The units with large ASCII letters in place of small ones (section 15.5.4.18).
pub fn upper_case(alloc: Global, units: &[u16]) -> Result<Vec<u16>, OutOfMemory>
    ensures { IfOk result (λ large. large.items ≡ map char.to_ascii_uppercase units.now) }
{
    let mut large = Vec::new(alloc);
    for unit in units {
        large.push(large_unit(*unit))?;
    }
    Ok(large)
}

fn small_unit(unit: u16) -> u16
    ensures { result ≡ char.to_ascii_lowercase unit }
{
    if unit >= u16::from(b'A') && unit <= u16::from(b'Z') {
        unit + 32
    } else {
        unit
    }
}

fn large_unit(unit: u16) -> u16
    ensures { result ≡ char.to_ascii_uppercase unit }
{
    if unit >= u16::from(b'a') && unit <= u16::from(b'z') {
        unit - 32
    } else {
        unit
    }
}

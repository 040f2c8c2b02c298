//! Texts split into parts (ECMA-262 5.1 section 15.5.4.14).

ghost use Rattle.std.specs.Prelude.{◌≡◌, ◌≤◌, ◌∷◌, [], IfOk, drop, length, map, take};
ghost use Rattle.page_meaning.specs.StringRows as spec;

use crate::searching::first_place;
use js_core::{OutOfMemory, Units};
use std::alloc::Global;

/// The parts of the text between the places of the separator, at most `limit` of them. The work is that of one search through
/// the text.
pub fn parts_of(
    alloc: Global,
    units: &[u16],
    separator: &[u16],
    limit: usize,
) -> Result<Vec<Units>, OutOfMemory>
    ensures { IfOk result (λ parts. parts.items ≡ take limit (spec.parts_of separator.now
        units.now)) }
{
    match separator {
        [] => single_units(alloc, units, limit),
        [_, ..] => parts_between(alloc, units, separator, limit),
    }
}

// Each unit for itself.
fn single_units(alloc: Global, units: &[u16], limit: usize) -> Result<Vec<Units>, OutOfMemory>
    ensures { IfOk result (λ parts. parts.items ≡ take limit (map (λ u. u ∷ []) units.now)) }
{
    let mut parts = Vec::new(alloc);
    for index in 0..limit.min(units.len()) {
        parts.push(Units::of(alloc, &[units[index]])?)?;
    }
    Ok(parts)
}

// The parts before each first place of the separator in the rest, and then the rest.
fn parts_between(
    alloc: Global,
    units: &[u16],
    separator: &[u16],
    limit: usize,
) -> Result<Vec<Units>, OutOfMemory>
    ensures { IfOk result (λ parts. parts.items ≡ take limit (spec.parts_between (length
        units.now) separator.now units.now)) }
{
    let mut parts = Vec::new(alloc);
    let mut rest = units;
    for _turn in 0..units.len() {
        if parts.as_slice().len() >= limit {
            break;
        }
        match first_place(rest, separator, 0) {
            Some(place) => {
                parts.push(Units::of(alloc, &rest[..place])?)?;
                rest = behind(rest, place + separator.len());
            }
            None => break,
        }
    }
    parts.push(Units::of(alloc, rest)?)?;
    parts.truncate(limit);
    Ok(parts)
}

fn behind(units: &[u16], place: usize) -> &[u16]
    requires { place ≤ length units.now }
    ensures { result.now ≡ drop place units.now }
{
    &units[place..]
}

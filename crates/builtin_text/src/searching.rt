//! Where one text stands in another (ECMA-262 5.1 sections 15.5.4.7, 15.5.4.8 and 15.5.4.14).
//!
//! Each place is tried, so a search costs at most the product of the two lengths, as the steps of the standard do; texts in
//! which many places begin alike are rare.

ghost use Rattle.std.specs.Prelude.{◌≡◌, ◌≤◌, ◌+◌, length, IfOk, IfSome, IsTrue};
ghost use Rattle.page_meaning.specs.StringRows as spec;

use crate::positions::{last_start, to_integer, within};
use js_core::{OutOfMemory, Units, Whole};

fn stands_at(units: &[u16], part: &[u16], place: usize) -> bool
    requires { place ≤ length units.now }
    ensures value { result ≡ spec.stands_at units.now part.now place }
    ensures inside { IsTrue result → place + length part.now ≤ length units.now }
{
    units[place..].starts_with(part)
}

/// The first place from `start` on at which the part stands.
pub fn first_place(units: &[u16], part: &[u16], start: usize) -> Option<usize>
    requires { start ≤ length units.now }
    ensures value { result ≡ spec.first_place units.now part.now start }
    ensures inside { IfSome result (λ place. place + length part.now ≤ length units.now) }
{
    let mut place = start;
    while place <= units.len() {
        if stands_at(units, part, place) {
            return Some(place);
        }
        place += 1;
    }
    None
}

/// The first place from the position on at which the part stands (section 15.5.4.7).
pub fn place_from(text: &Units, part: &Units, position: Whole) -> Option<usize>
    ensures { result ≡ spec.first_place text.now part.now (spec.within (length text.now)
        (spec.to_integer position)) }
{
    let units = text.as_slice();
    let start = within(units.len(), to_integer(position));
    first_place(units, part.as_slice(), start)
}

/// The last place up to the position at which the part stands (section 15.5.4.8).
pub fn last_place_from(text: &Units, part: &Units, position: Whole) -> Option<usize>
    ensures { result ≡ spec.last_place text.now part.now (spec.last_start (length text.now)
        position) }
{
    let units = text.as_slice();
    last_place(units, part.as_slice(), last_start(units.len(), position))
}

/// The last place up to `start` at which the part stands.
fn last_place(units: &[u16], part: &[u16], start: usize) -> Option<usize>
    requires { start ≤ length units.now }
    ensures { result ≡ spec.last_place units.now part.now start }
{
    let mut after = start + 1;
    while after > 0 {
        after -= 1;
        if stands_at(units, part, after) {
            return Some(after);
        }
    }
    None
}

/// How many units a text that has places may have: fewer than there are numbers.
const LONGEST: usize = 1 << 53;

/// The place as a number, -1 where there is none. A text has fewer units than there are numbers.
pub fn place_number(place: Option<usize>) -> Result<Whole, OutOfMemory>
    ensures { IfOk result (λ number. number ≡ spec.place_number place) }
{
    let number = match place {
        Some(place) if place < LONGEST => Whole::new(place as i64),
        Some(_) => None,
        None => Whole::new(-1),
    };
    match number {
        Some(number) => Ok(number),
        None => Err(OutOfMemory),
    }
}

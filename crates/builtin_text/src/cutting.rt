//! Parts of a text between two places (ECMA-262 5.1 sections 15.5.4.13 and 15.5.4.15).

ghost use Rattle.std.specs.Prelude.{◌≡◌, ◌≤◌, length, slice_range};
ghost use Rattle.page_meaning.specs.StringRows as spec;

use crate::positions::{end_of, from_either_end, to_integer, within};
use js_core::Whole;
use js_values::Value;

/// The units from one place to another, and none where the other comes before it.
fn range(units: &[u16], from: usize, to: usize) -> &[u16]
    requires from { from ≤ length units.now }
    requires to { to ≤ length units.now }
    ensures { result.now ≡ slice_range units.now from to }
{
    if from < to { &units[from..to] } else { &[] }
}

/// The units from one position to another, of which those below 0 count from the end; `last` is the argument that the second one
/// comes from.
pub fn sliced<'a>(units: &'a [u16], last: &Value, first: Whole, second: Whole) -> &'a [u16]
    ensures { result.now ≡ spec.sliced units.now last.now first second }
{
    let length = units.len();
    let from = from_either_end(length, to_integer(first));
    let to = end_of(length, last, from_either_end(length, to_integer(second)));
    range(units, from, to)
}

/// The units between two positions, whichever comes first.
pub fn substring_of<'a>(units: &'a [u16], last: &Value, first: Whole, second: Whole) -> &'a [u16]
    ensures { result.now ≡ spec.substring_of units.now last.now first second }
{
    let length = units.len();
    let a = within(length, to_integer(first));
    let b = end_of(length, last, within(length, to_integer(second)));
    range(units, a.min(b), a.max(b))
}

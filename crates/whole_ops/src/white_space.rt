//! White space round a text.

ghost use Rattle.std.specs.Prelude.{◌≡◌, ◌≤◌, reverse, length};
ghost use Rattle.std.specs.List.{prefix_len};
ghost use Rattle.whole_ops.specs.WhiteSpace as spec;

use js_core::{is_line_end, is_white_space};

/// The text without the white space with which it begins and ends.
#[tactic(auto, unfolding(crate::specs::WhiteSpace::trimmed))]
pub fn trimmed(units: &[u16]) -> &[u16]
    ensures { result.now ≡ spec.trimmed units.now }
{
    without_last_white_space(without_first_white_space(units))
}

fn without_first_white_space(units: &[u16]) -> &[u16]
    ensures { result.now ≡ spec.behind spec.is_str_white_space units.now }
{
    &units[white_space_len(units)..]
}

fn without_last_white_space(units: &[u16]) -> &[u16]
    ensures { result.now ≡ reverse (spec.behind spec.is_str_white_space (reverse units.now)) }
{
    &units[..units.len() - last_white_space_len(units)]
}

/// How many units of white space the text begins with.
fn white_space_len(units: &[u16]) -> usize
    ensures read { result ≡ prefix_len spec.is_str_white_space units.now }
    ensures within { result ≤ length units.now }
{
    units
        .iter()
        .take_while(|unit| is_str_white_space(**unit))
        .count()
}

/// How many units of white space the text ends with.
fn last_white_space_len(units: &[u16]) -> usize
    ensures read { result ≡ prefix_len spec.is_str_white_space (reverse units.now) }
    ensures within { result ≤ length units.now }
{
    units
        .iter()
        .rev()
        .take_while(|unit| is_str_white_space(**unit))
        .count()
}

/// Whether the unit is white space or ends a line (sections 7.2 and 7.3).
pub fn is_str_white_space(unit: u16) -> bool
    ensures { result ≡ spec.is_str_white_space unit }
{
    is_white_space(unit) || is_line_end(unit)
}

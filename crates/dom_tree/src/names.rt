//! Names of elements and attributes.

ghost use Rattle.std.specs.Prelude.{◌≡◌, IfOk, map, bytes_eq};
ghost use Rattle.dom_tree.specs.Name.{folded, is_name, is_name_part, is_name_start};
ghost use Rattle.std.specs.Char.{to_ascii_lowercase};
ghost use Rattle.std.specs.List.{list_all};

use js_core::{OutOfMemory, Units};
use std::alloc::Global;

/// Whether the text is a name: an ASCII letter, `_` or `:`, and then such characters, ASCII digits, `-` or `.`.
pub fn is_name(text: &Units) -> bool
    ensures { result ≡ is_name text.now }
{
    match text.as_slice() {
        [] => false,
        [start, rest @ ..] => is_name_start(*start) && has_name_parts(rest),
    }
}

fn has_name_parts(units: &[u16]) -> bool
    ensures { result ≡ list_all is_name_part units.now }
{
    units.iter().all(|unit| is_name_part(*unit))
}

fn is_name_start(unit: u16) -> bool
    ensures { result ≡ is_name_start unit }
{
    matches!(unit, 0x41..=0x5a | 0x61..=0x7a | 0x5f | 0x3a)
}

fn is_name_part(unit: u16) -> bool
    ensures { result ≡ is_name_part unit }
{
    is_name_start(unit) || matches!(unit, 0x30..=0x39 | 0x2d | 0x2e)
}

/// The unit, in lower case where it is an ASCII letter.
fn lower(unit: u16) -> u16
    ensures { result ≡ to_ascii_lowercase unit }
{
    if matches!(unit, 0x41..=0x5a) {
        unit + 0x20
    } else {
        unit
    }
}

/// The name with its ASCII letters in lower case.
pub(crate) fn fold(alloc: Global, name: &Units) -> Result<Units, OutOfMemory>
    ensures { IfOk result (λ text. text ≡ folded name.now) }
{
    let mut units = Vec::new(alloc);
    for unit in name.as_slice() {
        units.push(lower(*unit))?;
    }
    Units::of(alloc, units.as_slice())
}

/// Whether the text is the name with its ASCII letters in lower case.
pub(crate) fn is_folded_to(name: &Units, text: &Units) -> bool
    ensures { result ≡ bytes_eq text.now (folded name.now) }
{
    let (given, wanted) = (name.as_slice(), text.as_slice());
    if given.len() != wanted.len() {
        return false;
    }
    for (i, unit) in given.iter().enumerate() {
        if lower(*unit) != wanted[i] {
            return false;
        }
    }
    true
}

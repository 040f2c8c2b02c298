//! The text of a page from the units that stand in its file, and places in the file's bytes.

ghost use Rattle.std.specs.Prelude.{◌≡◌, ◌<◌, ◌+◌, ◌^◌, IfOk};
ghost use Rattle.page_reader.specs.Text as spec;

use js_core::OutOfMemory;
use std::alloc::Global;

const LINE_FEED: u16 = 0x0a;

const CARRIAGE_RETURN: u16 = 0x0d;

const BYTE_ORDER_MARK: u16 = 0xfeff;

/// Whether the text begins with a byte order mark.
pub fn has_mark(units: &[u16]) -> bool
    ensures { result ≡ spec.has_mark units.now }
{
    match units {
        [] => false,
        [unit, ..] => *unit == BYTE_ORDER_MARK,
    }
}

/// Whether U+0000 stands somewhere in the text.
pub fn has_zero(units: &[u16]) -> bool
    ensures { result ≡ spec.has_zero units.now }
{
    units.contains(&0)
}

/// The text with its line ends made LF: CR LF is one, and so is a CR alone.
pub fn with_line_feeds(alloc: Global, units: &[u16]) -> Result<Vec<u16>, OutOfMemory>
    ensures { IfOk result (λ lines. lines.items ≡ spec.with_line_feeds units.now) }
{
    let mut lines = Vec::new(alloc);
    let mut rest = units;
    while let [unit, behind @ ..] = rest {
        if !is_half(*unit, behind) {
            lines.push(line_feed(*unit))?;
        }
        rest = behind;
    }
    Ok(lines)
}

/// Whether the unit is the CR of a CR LF.
fn is_half(unit: u16, behind: &[u16]) -> bool
    ensures { result ≡ spec.is_half unit behind.now }
{
    unit == CARRIAGE_RETURN && begins_with_line_feed(behind)
}

fn begins_with_line_feed(units: &[u16]) -> bool
    ensures { result ≡ spec.begins_with_line_feed units.now }
{
    match units {
        [] => false,
        [unit, ..] => *unit == LINE_FEED,
    }
}

/// The unit, or LF where it is CR.
fn line_feed(unit: u16) -> u16
    ensures { result ≡ spec.line_feed unit }
{
    if unit == CARRIAGE_RETURN {
        LINE_FEED
    } else {
        unit
    }
}

/// The bytes of the unit's character, of whose four bytes each half of a surrogate pair has two.
fn unit_size(unit: u16) -> u64
    ensures { result ≡ spec.unit_size unit }
{
    match unit {
        0..=0x7f => 1,
        0x80..=0x7ff => 2,
        0xd800..=0xdfff => 2,
        _ => 3,
    }
}

/// What stands behind the first so many units of the text, and the bytes of these.
pub fn advanced(units: &[u16], count: u64) -> (&[u16], u64)
    requires short { spec.size_of units.now < 2 ^ 64 }
    ensures rest { result.0.now ≡ spec.units_behind units.now count }
    ensures bytes { result.1 ≡ spec.bytes_before units.now count }
{
    let mut rest = units;
    let mut left = count;
    let mut bytes = 0;
    while left > 0 {
        let [unit, behind @ ..] = rest else {
            return (rest, bytes);
        };
        bytes += unit_size(*unit);
        if !is_half(*unit, behind) {
            left -= 1;
        }
        rest = behind;
    }
    (rest, bytes)
}

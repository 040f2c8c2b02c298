//! The scripts of a page with their places in the file's bytes.

ghost use Rattle.std.specs.Prelude.{◌≡◌, ◌<◌, ◌+◌, ◌^◌, IfOk, map};
ghost use Rattle.page_reader.specs.Bytes.{script_of};
ghost use Rattle.page_reader.specs.Text as spec;

use crate::page::{Place, ScriptText};
use crate::text::advanced;
use js_core::OutOfMemory;
use page_tokens::RawText;
use std::alloc::Global;

/// The scripts with their places in the file's bytes, of which `skipped` stand before the units. Where the scripts stand in the
/// order of the text, it is gone through once.
pub fn placed(
    alloc: Global,
    units: &[u16],
    skipped: u64,
    raws: &[RawText],
) -> Result<Vec<ScriptText>, OutOfMemory>
    requires short { skipped + spec.size_of units.now < 2 ^ 64 }
    ensures { IfOk result (λ scripts. scripts.items ≡ map (script_of skipped units.now) raws.now) }
{
    let mut scripts = Vec::new(alloc);
    let mut rest = units;
    let mut passed = 0;
    let mut bytes = 0;
    for raw in raws {
        let (inner, start) = at_place(units, rest, passed, bytes, raw.start);
        let (behind, end) = at_place(units, inner, raw.start, start, raw.end);
        let place = Place {
            start: skipped + start,
            end: skipped + end,
        };
        scripts.push(script_text(raw, place)?)?;
        rest = behind;
        passed = raw.end;
        bytes = end;
    }
    Ok(scripts)
}

/// What stands behind so many units of the text, and the bytes of these, from what stands behind others.
fn at_place<'a>(
    units: &'a [u16],
    rest: &'a [u16],
    passed: u64,
    bytes: u64,
    place: u64,
) -> (&'a [u16], u64)
    requires short { spec.size_of units.now < 2 ^ 64 }
    requires rest { rest.now ≡ spec.units_behind units.now passed }
    requires bytes { bytes ≡ spec.bytes_before units.now passed }
    ensures rest { result.0.now ≡ spec.units_behind units.now place }
    ensures bytes { result.1 ≡ spec.bytes_before units.now place }
{
    if place < passed {
        return advanced(units, place);
    }
    let (behind, more) = advanced(rest, place - passed);
    (behind, bytes + more)
}

/// The script at this place, which shares the units.
fn script_text(raw: &RawText, place: Place) -> Result<ScriptText, OutOfMemory>
    ensures { IfOk result (λ script. (script.text ≡ raw.now.text) × (script.place ≡ place)) }
{
    Ok(ScriptText {
        text: raw.text.clone()?,
        place,
    })
}

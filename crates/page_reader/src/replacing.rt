//! Pages whose scripts' texts are replaced.

ghost use Rattle.std.specs.Prelude.{◌≡◌, ◌++◌, OnOk, drop, map};
ghost use Rattle.page_reader.specs.Replacing as spec;

use crate::page::Place;
use js_core::OutOfMemory;

/// The mark with which a form page begins.
pub const FORM_MARK: &[u8] = b"<!--imagen 1-->";

/// Appends the bytes of a page from a place on, with these texts in the places of its scripts' texts, one for each script. After
/// an error `out` may end with a part of them.
pub fn replace_scripts(
    bytes: &[u8],
    from: u64,
    places: &[Place],
    texts: &[Vec<u8>],
    out: &mut Vec<u8>,
) -> Result<(), OutOfMemory>
    ensures { OnOk result (out.new.items ≡ out.old.items
        ++ spec.replaced_from from bytes.now places.now (map (λ t. t.items) texts.now)) }
{
    let mut from = from;
    let mut places = places;
    let mut rest = texts;
    while let Some((place, more)) = places.split_first() {
        let Some((text, others)) = rest.split_first() else {
            out.extend_from_slice(behind(bytes, from))?;
            return Ok(());
        };
        out.extend_from_slice(part(bytes, from, place.start))?;
        out.extend_from_slice(text.as_slice())?;
        from = place.end;
        places = more;
        rest = others;
    }
    out.extend_from_slice(behind(bytes, from))?;
    Ok(())
}

/// The bytes between two places.
fn part(bytes: &[u8], from: u64, to: u64) -> &[u8]
    ensures { result.now ≡ spec.part bytes.now from to }
{
    let rest = behind(bytes, from);
    let size = to.saturating_sub(from);
    if size < rest.len() as u64 {
        &rest[..size as usize]
    } else {
        rest
    }
}

/// The bytes from a place on.
fn behind(bytes: &[u8], from: u64) -> &[u8]
    ensures { result.now ≡ drop from bytes.now }
{
    if from < bytes.len() as u64 {
        &bytes[from as usize..]
    } else {
        &bytes[bytes.len()..]
    }
}

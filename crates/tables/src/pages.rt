//! The pages of a table and how they are read.

ghost use Rattle.std.specs.Prelude.{◌<◌};

use dom_tree::Dom;
use js_core::Units;
use js_values::NodeId;
use page_reader::{Page, PageError, PageFault, ScriptText, read_page};
use std::alloc::{AllocError, Global};

/// The bytes of a page in a row, where a backslash, `x` and two hexadecimal digits are one byte.
pub fn bytes_of(alloc: Global, row: &[u8]) -> Result<Vec<u8>, AllocError> {
    let mut bytes = Vec::new(alloc);
    let mut rest = row;
    while let [byte, behind @ ..] = rest {
        rest = behind;
        if *byte != b'\\' {
            bytes.push(*byte)?;
        } else if let [_, high, low, more @ ..] = behind {
            bytes.push(digit(*high) * 16 + digit(*low))?;
            rest = more;
        }
    }
    Ok(bytes)
}

fn digit(byte: u8) -> u8
    ensures { result < 16 }
{
    match byte {
        b'0'..=b'9' => byte - b'0',
        b'a'..=b'f' => byte - b'a' + 10,
        _ => 0,
    }
}

/// The text of these characters.
pub fn units_of(alloc: Global, word: &str) -> Result<Units, AllocError> {
    match Units::from_utf8(alloc, word) {
        Ok(units) => Ok(units),
        Err(_) => Err(AllocError),
    }
}

/// How the bytes are read: `not utf8`, `not page`, or `page` with the text of the document, and for each script its place and text.
pub fn reading(alloc: Global, bytes: &[u8]) -> Result<Vec<u8>, AllocError> {
    let mut out = Vec::new(alloc);
    match read_page(alloc, bytes) {
        Ok(page) => push_page(alloc, &page, &mut out)?,
        Err(PageFault::Cause(PageError::NotUtf8)) => out.extend_from_slice(b"not utf8")?,
        Err(PageFault::Cause(PageError::NotPage)) => out.extend_from_slice(b"not page")?,
        Err(PageFault::OutOfMemory) => return Err(AllocError),
    }
    Ok(out)
}

fn push_page(alloc: Global, page: &Page, out: &mut Vec<u8>) -> Result<(), AllocError> {
    out.extend_from_slice(b"page ")?;
    push_document(alloc, &page.dom, out)?;
    for script in page.scripts.as_slice() {
        push_script(alloc, script, out)?;
    }
    Ok(())
}

/// Appends the text of the document as it stands in a line.
pub fn push_document(alloc: Global, dom: &Dom, out: &mut Vec<u8>) -> Result<(), AllocError> {
    let mut units = Vec::new(alloc);
    if dom.count() == 0 || dom.dom_text(NodeId(0), &mut units).is_err() {
        return Err(AllocError);
    }
    push_line(alloc, units.as_slice(), out)
}

fn push_script(alloc: Global, script: &ScriptText, out: &mut Vec<u8>) -> Result<(), AllocError> {
    let start = script.place.start;
    let end = script.place.end;
    let place = format!(in alloc; " {start}-{end} ")?;
    out.extend_from_slice(place.as_bytes())?;
    push_line(alloc, script.text.as_slice(), out)
}

/// Appends the text as it stands in a line.
pub fn push_line(alloc: Global, units: &[u16], out: &mut Vec<u8>) -> Result<(), AllocError> {
    let Ok(text) = Units::of(alloc, units) else {
        return Err(AllocError);
    };
    match text.to_line_text(out) {
        Ok(()) => Ok(()),
        Err(_) => Err(AllocError),
    }
}

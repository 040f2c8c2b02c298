//! The lines that commands write of sessions that are kept.

ghost use Rattle.std.specs.Prelude.{◌≡◌, ◌++◌, IfOk, OnOk};
ghost use Rattle.parking.specs.Rows as spec;

use js_core::OutOfMemory;
use outcomes::push_number;
use page_io::KeptName;
use std::alloc::Global;

/// What was done, the name and the version of a row, and LF.
pub fn row_line(
    alloc: Global,
    done: &[u8],
    name: &str,
    version: u64,
) -> Result<Vec<u8>, OutOfMemory>
    ensures { IfOk result (λ text. text.items ≡ spec.row_line done.now name.now version) }
{
    let mut text = Vec::from_slice(alloc, done)?;
    text.extend_from_slice(name.as_bytes())?;
    push_number(&mut text, version)?;
    text.push(b'\n')?;
    Ok(text)
}

// Appends the name, the version and the size of a row, and LF.
fn push_row(text: &mut Vec<u8>, row: &KeptName) -> Result<(), OutOfMemory>
    ensures { OnOk result (text.new.items ≡ text.old.items ++ spec.size_line row.now) }
{
    row.name.to_line_text(text)?;
    push_number(text, row.version)?;
    push_number(text, row.size)?;
    text.push(b'\n')?;
    Ok(())
}

// Whether the name of a row has a dot.
fn is_hidden(row: &KeptName) -> bool
    ensures { result ≡ spec.is_hidden row.now }
{
    row.name.as_slice().contains(&u16::from(b'.'))
}

/// The lines of the rows that are listed.
pub fn listed_text(alloc: Global, rows: &[KeptName]) -> Result<Vec<u8>, OutOfMemory>
    ensures { IfOk result (λ text. text.items ≡ spec.listed_text rows.now) }
{
    let mut text = Vec::new(alloc);
    for row in rows {
        if !is_hidden(row) {
            push_row(&mut text, row)?;
        }
    }
    Ok(text)
}

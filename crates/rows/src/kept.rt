//! What is kept before and after a row.

use crate::text::{items_at, malformed, text_of};
use page_io::{Keeper, KeptName, MemoryKeeper};
use serde_json::Value;
use std::alloc::Global;
use std::io;
use std::io::{Error, ErrorKind};

/// A row that is kept: its name, its version and its bytes.
#[derive(Drop)]
pub struct KeptRow {
    name: String,
    version: u64,
    bytes: Vec<u8>,
}

// A keeper in memory fails only where it is told to, or where memory runs out.
fn no_memory<E: Drop>(_: E) -> Error {
    Error::from(ErrorKind::OutOfMemory)
}

/// The rows at a key: each is a list of a name, a version and a text.
pub fn kept_at(alloc: Global, row: &Value, key: &str) -> io::Result<Vec<KeptRow>> {
    let mut kept = Vec::new(alloc);
    for item in items_at(row, key) {
        match item.as_array().map(|parts| parts.as_slice()) {
            Some([name, version, text]) => kept.push(KeptRow {
                name: String::from_str(alloc, name.as_str().ok_or(malformed())?)?,
                version: version.as_u64().ok_or(malformed())?,
                bytes: text_of(alloc, text)?,
            })?,
            _ => return Err(malformed()),
        }
    }
    Ok(kept)
}

/// A keeper of these rows, to which no call was made yet but those that put them: of the later ones those fail whose numbers are
/// listed.
pub fn keeper_of(alloc: Global, kept: &[KeptRow], calls: &[u64]) -> io::Result<MemoryKeeper> {
    let mut failing = Vec::new(alloc);
    for call in calls {
        failing.push(call.saturating_add(kept.len() as u64))?;
    }
    let mut keeper = MemoryKeeper::new(alloc, failing);
    for row in kept {
        keeper
            .put(alloc, &row.name, row.version, &row.bytes)
            .map_err(no_memory)?;
    }
    Ok(keeper)
}

// Appends a row of a keeper: its name, its version and its bytes.
fn push_row(
    alloc: Global,
    keeper: &mut MemoryKeeper,
    row: &KeptName,
    text: &mut Vec<u8>,
) -> io::Result<()> {
    let mut line = Vec::new(alloc);
    row.name.to_line_text(&mut line).map_err(no_memory)?;
    let name = str::from_utf8(&line).map_err(|_| malformed())?;
    let bytes = keeper.get(alloc, name, row.version).map_err(no_memory)?;
    text.extend_from_slice(name.as_bytes())?;
    let version = format!(in alloc; " {} ", row.version)?;
    text.extend_from_slice(version.as_bytes())?;
    match bytes {
        Some(bytes) => text.extend_from_slice(&bytes)?,
        None => return Err(malformed()),
    }
    text.push(b'\n')?;
    Ok(())
}

/// The rows that a keeper has, a line each: the name, the version and the bytes. So many calls are made before, since they may be among
/// those that fail.
pub fn kept_text(alloc: Global, keeper: &mut MemoryKeeper, before: u64) -> io::Result<Vec<u8>> {
    for _ in 0..before {
        let _rows = keeper.list(alloc);
    }
    let mut text = Vec::new(alloc);
    let rows = keeper.list(alloc).map_err(no_memory)?;
    for row in &rows {
        push_row(alloc, keeper, row, &mut text)?;
    }
    Ok(text)
}

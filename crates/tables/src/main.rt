//! Reads tables of pages, nodes, scripts, operators and event files, and tells each row that is read or ends otherwise than it says.
#![tactic(auto)]

mod events;
mod nodes;
mod numbers;
mod operand;
mod operator;
mod outcome;
mod pages;
mod scripts;
mod tokens;

use js_core::OutOfMemory;
use pages::bytes_of;
use std::alloc::Global;
use std::{env, fs, io};

// The text of bytes, to be shown.
fn shown(bytes: &[u8]) -> &str {
    match str::from_utf8(bytes) {
        Ok(text) => text,
        Err(_) => "(no UTF-8)",
    }
}

// How the bytes of a row are read, as a page or as the tokens of a script.
fn reading(alloc: Global, name: &str, asked: &str) -> Result<Vec<u8>, OutOfMemory> {
    let bytes = bytes_of(alloc, asked.as_bytes())?;
    if name == "pages.rows" {
        return Ok(pages::reading(alloc, bytes.as_slice())?);
    }
    match str::from_utf8(bytes.as_slice()) {
        Ok(text) => Ok(tokens::reading(alloc, text)?),
        Err(_) => Ok(Vec::new(alloc)),
    }
}

// What a row of the table of this name is answered with.
fn answer(alloc: Global, name: &str, asked: &str) -> Result<Vec<u8>, OutOfMemory> {
    match name {
        "events.rows" => events::reading(alloc, asked.as_bytes()),
        "nodes.rows" => Ok(nodes::endings(alloc, asked)?),
        "numbers.rows" => {
            let outcome = numbers::outcome(alloc, asked)?;
            Ok(Vec::from_slice(alloc, format!(in alloc; "{outcome}")?.as_bytes())?)
        }
        "scripts.rows" => scripts::reading(alloc, asked),
        _ => reading(alloc, name, asked),
    }
}

// Whether a row ends as it says, after its last tab.
fn agrees<R: Print + AllocGlobal>(rt: &R, name: &str, number: u64, row: &str) -> io::Result<bool> {
    let Some((asked, wanted)) = row.rsplit_once('\t') else {
        return Ok(false);
    };
    let Ok(found) = answer(rt.alloc(), name, asked) else {
        return Err(io::Error::from(io::ErrorKind::OutOfMemory));
    };
    if found.as_slice() == wanted.as_bytes() {
        return Ok(true);
    }
    println!(rt; "{number}: {}", shown(found.as_slice()))?;
    Ok(false)
}

// Reads the rows of a file, one a line, and tells how many there are and how many end otherwise.
fn compare<R: Print + AllocGlobal>(rt: &R, name: &str, rows: &str) -> io::Result<()> {
    let mut number: u64 = 0;
    let mut differing: u64 = 0;
    for row in rows.lines() {
        number = number.saturating_add(1);
        if !agrees(rt, name, number, row)? {
            differing = differing.saturating_add(1);
        }
    }
    println!(rt; "{name}: {number} rows, {differing} differ")
}

fn main(rt: HostRuntime) -> io::Result<()> {
    for name in env::args(&rt)?.skip(1) {
        let rows = fs::read_to_string(&rt, name.as_str())?;
        compare(&rt, name.as_str(), rows.as_str())?;
    }
    Ok(())
}

//! Runs the commands on rows of examples, which are data, and tells each row that ends otherwise than it says.
#![tactic(auto)]

mod kept;
mod row;
mod text;

use row::{Ending, Row};
use std::{env, fs, io};

// The text of bytes, to be shown.
fn shown(bytes: &[u8]) -> &str {
    match str::from_utf8(bytes) {
        Ok(text) => text,
        Err(_) => "(no UTF-8)",
    }
}

// Tells how a row ends that says otherwise.
fn tell<R: Print>(rt: &R, name: &str, number: u64, ending: &Ending) -> io::Result<()> {
    println!(rt;
        "{name} {number}: status {}, text {:?}, note {:?}, rows {:?}",
        ending.status,
        shown(&ending.text),
        shown(&ending.note),
        shown(&ending.kept)
    )
}

// Runs the rows of a file, one a line, and tells how many there are and how many end otherwise.
fn compare<R: Print + AllocGlobal>(rt: &R, name: &str, rows: &str) -> io::Result<()> {
    let mut number: u64 = 0;
    let mut differing: u64 = 0;
    for line in rows.lines() {
        number = number.saturating_add(1);
        let row = Row::read(rt.alloc(), line)?;
        let ending = row.run(rt.alloc())?;
        if !row.wants(&ending) {
            differing = differing.saturating_add(1);
            tell(rt, name, number, &ending)?;
        }
    }
    println!(rt; "{name}: {number} rows, {differing} differ")
}

fn main(rt: HostRuntime) -> io::Result<()> {
    for name in env::args(&rt)?.skip(1) {
        let rows = fs::read_to_string(&rt, name.as_str())?;
        compare(&rt, name.as_str(), rows.as_str())?;
    }
    Ok(())
}

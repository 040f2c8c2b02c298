//! Rows of examples.

use crate::kept::{KeptRow, keeper_of, kept_at, kept_text};
use crate::text::{malformed, number_at, numbers_at, pairs_at, text_at, text_of, words_at};
use command_line::run;
use js_core::OutOfMemory;
use page_io::{MemoryFiles, MemorySink};
use serde_json::Value;
use std::alloc::Global;
use std::io;
use std::io::{Error, ErrorKind};

/// How a command ended, what it wrote, its note, and what is kept then.
#[derive(Drop)]
pub struct Ending {
    pub status: u64,
    pub text: Vec<u8>,
    pub note: Vec<u8>,
    pub kept: Vec<u8>,
}

/// A command, what it finds outside, and how it is to end.
#[derive(Drop)]
pub struct Row {
    words: Vec<String>,
    // what the names `p` and `e` hold
    page: Option<Vec<u8>>,
    events: Option<Vec<u8>>,
    // the rows that are kept before
    kept: Vec<KeptRow>,
    // how many bytes the output takes, and the notes
    room: u64,
    // the calls that fail, by their numbers; a put also with how many bytes it takes
    reads: Vec<u64>,
    calls: Vec<u64>,
    puts: Vec<(u64, u64)>,
    notes: Vec<(u64, u64)>,
    wanted: Ending,
}

// What a page is in a row: its whole text, its script, its items behind the strict directive, or those of a form page.
const PAGES: [(&str, &str, &str); 4] = [
    ("page", "", ""),
    ("script", "<html><script>", "</script></html>"),
    (
        "items",
        "<html><body></body><script>\"use strict\";",
        "</script></html>",
    ),
    (
        "form",
        "<!--imagen 1--><html><script>\"use strict\";",
        "</script></html>",
    ),
];

// How much room there is where a row does not say it.
const ROOM: u64 = 1000;

// Want of memory.
fn no_memory(_: OutOfMemory) -> Error {
    Error::from(ErrorKind::OutOfMemory)
}

// The page of a row, if it has one.
fn page_of(alloc: Global, row: &Value) -> io::Result<Option<Vec<u8>>> {
    for (key, front, back) in PAGES {
        if let Some(text) = row.get(key) {
            let text = text_of(alloc, text)?;
            let mut page = Vec::from_slice(alloc, front.as_bytes())?;
            page.extend_from_slice(&text)?;
            page.extend_from_slice(back.as_bytes())?;
            return Ok(Some(page));
        }
    }
    Ok(None)
}

// The event file of a row: no events where it does not say, and none where it says `null`.
fn events_of(alloc: Global, row: &Value) -> io::Result<Option<Vec<u8>>> {
    match row.get("events") {
        Some(events) if events.is_null() => Ok(None),
        Some(events) => Ok(Some(text_of(alloc, events)?)),
        None => Ok(Some(Vec::from_slice(alloc, b"[]")?)),
    }
}

// A file of this name, if there is one.
fn push_file(
    alloc: Global,
    files: &mut Vec<(String, Vec<u8>)>,
    name: &str,
    content: &Option<Vec<u8>>,
) -> io::Result<()> {
    if let Some(bytes) = content {
        files.push((String::from_str(alloc, name)?, bytes.to_vec(alloc)?))?;
    }
    Ok(())
}

impl Row {
    /// The row of a line.
    pub fn read(alloc: Global, line: &str) -> io::Result<Row> {
        let row = Value::from_str(alloc, line).map_err(|_| malformed())?;
        Ok(Row {
            words: words_at(alloc, &row, "words")?,
            page: page_of(alloc, &row)?,
            events: events_of(alloc, &row)?,
            kept: kept_at(alloc, &row, "kept")?,
            room: number_at(&row, "room", ROOM)?,
            reads: numbers_at(alloc, &row, "reads")?,
            calls: numbers_at(alloc, &row, "calls")?,
            puts: pairs_at(alloc, &row, "puts")?,
            notes: pairs_at(alloc, &row, "notes")?,
            wanted: Ending {
                status: number_at(&row, "status", 0)?,
                text: text_at(alloc, &row, "text")?,
                note: text_at(alloc, &row, "note")?,
                kept: text_at(alloc, &row, "rows")?,
            },
        })
    }

    // The number of the last of the keeper's calls that fail, after those that put the rows there.
    fn last_call(&self) -> u64 {
        let mut last = 0;
        for call in &self.calls {
            last = last.max(*call);
        }
        last.saturating_add(self.kept.len() as u64)
    }

    /// How the command of the row ends, over files, an output, notes and a keeper in memory.
    pub fn run(&self, alloc: Global) -> io::Result<Ending> {
        let mut held = Vec::new(alloc);
        push_file(alloc, &mut held, "p", &self.page)?;
        push_file(alloc, &mut held, "e", &self.events)?;
        let mut files = MemoryFiles::new(held, self.reads.to_vec(alloc)?);
        let puts = self.puts.to_vec(alloc)?;
        let mut out = MemorySink::new(alloc, self.room, puts).map_err(no_memory)?;
        let puts = self.notes.to_vec(alloc)?;
        let mut notes = MemorySink::new(alloc, self.room, puts).map_err(no_memory)?;
        let mut keeper = keeper_of(alloc, &self.kept, &self.calls)?;
        let status = run(
            alloc,
            &self.words,
            &mut files,
            &mut out,
            &mut notes,
            &mut keeper,
        );
        Ok(Ending {
            status: u64::from(status.code()),
            text: out.bytes().to_vec(alloc)?,
            note: notes.bytes().to_vec(alloc)?,
            kept: kept_text(alloc, &mut keeper, self.last_call())?,
        })
    }

    /// Whether the command is to end so.
    pub fn wants(&self, ending: &Ending) -> bool {
        self.wanted.status == ending.status
            && self.wanted.text == ending.text
            && self.wanted.note == ending.note
            && self.wanted.kept == ending.kept
    }
}

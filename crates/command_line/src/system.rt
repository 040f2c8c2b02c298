//! The program over the system: its words, real files, its output and its notes.

ghost use Rattle.std.specs.Prelude.{◌≡◌, ◌⊎◌, IsErr};
ghost use Rattle.std.specs.Process.{exit_status};
ghost use Rattle.outcomes.specs.Notes.{note_of, Noted};
ghost use Rattle.outcomes.specs.Status.{exit_status_of};
ghost use Rattle.outcomes.specs.declared.status.Status.{Status as Ending};

use crate::program::run;
use outcomes::{Status, write_note};
use page_io::{Files, Keeper, RealFiles, RealSink, Sink};
use std::alloc::Global;
use std::io;
use std::io::{ErrorKind, Write};
use std::process::ExitCode;
use std::rt::Env;

/// Does what the words after the program's name ask for, over the files of the system, keeps sessions in `keeper`, and puts
/// the text of the command to `out` and its note to `notes`. Words that are no UTF-8 are no command line.
pub fn run_on_system<R, O, N, K>(rt: &R, out: O, notes: N, mut keeper: K) -> ExitCode
where
    R: Env + std::fs::Files + AllocGlobal,
    O: Write + Drop,
    N: Write + Drop,
    K: Keeper + Drop,
    ensures { (status : Ending) × (exit_status result ≡ exit_status_of status) }
{
    let words = words_of(rt);
    let mut files = RealFiles::new(rt);
    let mut out = RealSink::new(out);
    let mut notes = RealSink::new(notes);
    let status = ended(
        rt.alloc(),
        words,
        &mut files,
        &mut out,
        &mut notes,
        &mut keeper,
    );
    ExitCode::from(status.code())
}

/// Ends a program for which memory ran out before its words were read: puts the note of that to `notes`.
pub fn tell_out_of_memory<N: Write + Drop>(notes: N) -> ExitCode
    ensures { exit_status result ≡ exit_status_of Status.OutOfMemory }
{
    let mut notes = RealSink::new(notes);
    write_note(&mut notes, Status::OutOfMemory);
    ExitCode::from(Status::OutOfMemory.code())
}

// The words after the program's name.
fn words_of<R: Env + AllocGlobal>(rt: &R) -> io::Result<Vec<String>> {
    let mut words = Vec::new(rt.alloc());
    for word in std::env::args(rt)?.skip(1) {
        words.push(word)?;
    }
    Ok(words)
}

// Ends as the words say. Words that are no UTF-8 are no command line, as no words are; and want of memory for them has
// its note too.
fn ended<F: Files, O: Sink, N: Sink, K: Keeper>(
    alloc: Global,
    words: io::Result<Vec<String>>,
    files: &mut F,
    out: &mut O,
    notes: &mut N,
    keeper: &mut K,
) -> Status
    ensures note { Noted (note_of result) (N.seen notes.old) (N.seen notes.new) }
    ensures unreadable { IsErr words
        → (result ≡ Status.Usage) ⊎ (result ≡ Status.OutOfMemory) }
    ensures untouched { IsErr words
        → (files.new ≡ files.old) × (out.new ≡ out.old) × (keeper.new ≡ keeper.old) }
{
    match words {
        Ok(words) => run(alloc, &words, files, out, notes, keeper),
        Err(error) if error.kind() == ErrorKind::OutOfMemory => {
            write_note(notes, Status::OutOfMemory);
            Status::OutOfMemory
        }
        Err(_) => run(alloc, &[], files, out, notes, keeper),
    }
}

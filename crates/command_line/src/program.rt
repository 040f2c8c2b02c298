//! The top call of the program.

ghost use Rattle.std.specs.Prelude.{◌≡◌, ◌↔◌, None, map, string_bytes};
ghost use Rattle.outcomes.specs.Notes.{note_of, Noted};
ghost use Rattle.outcomes.specs.Seen.{seen_between, Lasts};
ghost use Rattle.outcomes.specs.Stages.{IsRefusal, Keeps, Spares};
ghost use Rattle.outcomes.specs.Work.{Answers};
ghost use Rattle.command_line.specs.Command.{command_of, view, HasParts};
ghost use Rattle.command_line.specs.Endings.{stages_of, Ends, Puts, Rows};
ghost use Rattle.command_line.specs.Works.{work_of};

use crate::command;
use crate::command::Command;
use crate::save::save;
use outcomes::{Status, put_text, write_note};
use page_io::{Files, Keeper, Sink};
use parking::{drop_row, fetch, park, parked};
use read_files::{check, instrument, replay};
use std::alloc::Global;
use stress::stress;

// Does what a command asks for.
fn perform<F: Files, O: Sink, K: Keeper>(
    alloc: Global,
    command: Command<'_>,
    files: &mut F,
    out: &mut O,
    keeper: &mut K,
) -> Status
    requires { HasParts (view command) }
    ensures answers { Answers (work_of (view command.entry)) result
        (seen_between (F.seen files.old) (F.seen files.new) (K.seen keeper.old) (K.seen keeper.new))
        (O.seen out.old) (O.seen out.new) }
    ensures kept { Keeps (work_of (view command.entry)).stages keeper.old keeper.new }
    ensures unread { Spares (work_of (view command.entry)).stages files.old files.new }
    ensures unput { IsRefusal result → out.new ≡ out.old }
{
    match command {
        Command::Check(page) => put_text(check(alloc, page, files), out),
        Command::Instrument(page) => put_text(instrument(alloc, page, files), out),
        Command::Replay(page, events) => put_text(replay(alloc, page, events, files), out),
        Command::Save(page, events) => save(alloc, page, events, files, out),
        Command::Park(page, events, name) => {
            put_text(park(alloc, page, events, name, files, keeper), out)
        }
        Command::Fetch(name, version) => put_text(fetch(alloc, name, version, keeper), out),
        Command::Parked => put_text(parked(alloc, keeper), out),
        Command::Drop(name, version) => put_text(drop_row(alloc, name, version, keeper), out),
        Command::Stress(parts) => put_text(stress(alloc, parts), out),
    }
}

// Does what the words ask for.
fn obey<F: Files, O: Sink, K: Keeper>(
    alloc: Global,
    words: &[String],
    files: &mut F,
    out: &mut O,
    keeper: &mut K,
) -> Status
    ensures usage { (result ≡ Status.Usage) ↔ (command_of (map string_bytes words.now) ≡ None) }
    ensures untouched { result ≡ Status.Usage
        → (files.new ≡ files.old) × (out.new ≡ out.old) × (keeper.new ≡ keeper.old) }
    ensures ends { Ends (command_of (map string_bytes words.now)) result
        (seen_between (F.seen files.old) (F.seen files.new) (K.seen keeper.old) (K.seen keeper.new))
        (O.seen out.old) (O.seen out.new) }
    ensures puts { Puts (command_of (map string_bytes words.now)) result
        (seen_between (F.seen files.old) (F.seen files.new) (K.seen keeper.old) (K.seen keeper.new))
        (O.seen out.old) (O.seen out.new) }
    ensures rows { Rows (command_of (map string_bytes words.now)) result
        (seen_between (F.seen files.old) (F.seen files.new)
        (K.seen keeper.old) (K.seen keeper.new)) }
    ensures lasts { Lasts
        (seen_between (F.seen files.old) (F.seen files.new) (K.seen keeper.old) (K.seen keeper.new))
        (O.seen out.old) (O.seen out.new) }
    ensures kept { Keeps (stages_of (command_of (map string_bytes words.now)))
        keeper.old keeper.new }
    ensures unread { Spares (stages_of (command_of (map string_bytes words.now)))
        files.old files.new }
    ensures unput { IsRefusal result → out.new ≡ out.old }
{
    match command::command_of(words) {
        None => Status::Usage,
        Some(command) => perform(alloc, command, files, out, keeper),
    }
}

/// Does what the words of the command line ask for: reads the files that they name from `files`, keeps sessions in
/// `keeper`, puts the text of the command to `out`, and one line to `notes` where it does not end well. How it ends is the
/// answer: the first cause in the order of the work (`specs/Works.antt`).
pub fn run<F: Files, O: Sink, N: Sink, K: Keeper>(
    alloc: Global,
    words: &[String],
    files: &mut F,
    out: &mut O,
    notes: &mut N,
    keeper: &mut K,
) -> Status
    ensures usage { (result ≡ Status.Usage) ↔ (command_of (map string_bytes words.now) ≡ None) }
    ensures untouched { result ≡ Status.Usage
        → (files.new ≡ files.old) × (out.new ≡ out.old) × (keeper.new ≡ keeper.old) }
    ensures ends { Ends (command_of (map string_bytes words.now)) result
        (seen_between (F.seen files.old) (F.seen files.new) (K.seen keeper.old) (K.seen keeper.new))
        (O.seen out.old) (O.seen out.new) }
    ensures puts { Puts (command_of (map string_bytes words.now)) result
        (seen_between (F.seen files.old) (F.seen files.new) (K.seen keeper.old) (K.seen keeper.new))
        (O.seen out.old) (O.seen out.new) }
    ensures rows { Rows (command_of (map string_bytes words.now)) result
        (seen_between (F.seen files.old) (F.seen files.new)
        (K.seen keeper.old) (K.seen keeper.new)) }
    ensures lasts { Lasts
        (seen_between (F.seen files.old) (F.seen files.new) (K.seen keeper.old) (K.seen keeper.new))
        (O.seen out.old) (O.seen out.new) }
    ensures note { Noted (note_of result) (N.seen notes.old) (N.seen notes.new) }
    ensures silent { result ≡ Status.Ok → notes.new ≡ notes.old }
    ensures kept { Keeps (stages_of (command_of (map string_bytes words.now)))
        keeper.old keeper.new }
    ensures unread { Spares (stages_of (command_of (map string_bytes words.now)))
        files.old files.new }
    ensures unput { IsRefusal result → out.new ≡ out.old }
{
    let status = obey(alloc, words, files, out, keeper);
    write_note(notes, status);
    status
}

//! The note of a status.

ghost use Rattle.std.specs.Prelude.{◌≡◌, ◌++◌, Some};
ghost use Rattle.outcomes.specs.Notes.{note_of, script_note, script_start, things_start, PutWhole, PutFront, PutCounts, Noted};

use crate::status::Status;
use early_rules::EarlyRule;
use heap_walker::Weight;
use itoa::Buffer;
use page_check::Refusal;
use page_io::{PutFault, Sink};

// Puts two pieces, the second one where the first was taken.
fn put_two<N: Sink>(notes: &mut N, first: &[u8], second: &[u8]) -> Result<(), PutFault>
    ensures ok { PutWhole (N.seen notes.old) (N.seen notes.new) (first.now ++ second.now) result }
    ensures fault { PutFront (N.seen notes.old) (N.seen notes.new)
        (first.now ++ second.now) result }
    ensures counts { PutCounts (N.seen notes.old) (N.seen notes.new) result }
{
    match notes.put(first) {
        Ok(()) => notes.put(second),
        Err(fault) => Err(fault),
    }
}

// Puts three pieces, as long as none fails.
fn put_three<N: Sink>(
    notes: &mut N,
    first: &[u8],
    second: &[u8],
    third: &[u8],
) -> Result<(), PutFault>
    ensures ok { PutWhole (N.seen notes.old) (N.seen notes.new)
        (first.now ++ second.now ++ third.now) result }
    ensures fault { PutFront (N.seen notes.old) (N.seen notes.new)
        (first.now ++ second.now ++ third.now) result }
    ensures counts { PutCounts (N.seen notes.old) (N.seen notes.new) result }
{
    match put_two(notes, first, second) {
        Ok(()) => notes.put(third),
        Err(fault) => Err(fault),
    }
}

// Puts what stands first in the note of a page whose script of this number is refused.
fn put_start<N: Sink>(notes: &mut N, script: u64) -> Result<(), PutFault>
    ensures ok { PutWhole (N.seen notes.old) (N.seen notes.new) (script_start script) result }
    ensures fault { PutFront (N.seen notes.old) (N.seen notes.new) (script_start script) result }
    ensures counts { PutCounts (N.seen notes.old) (N.seen notes.new) result }
{
    let mut digits = Buffer::new();
    let number = digits.format(script).as_bytes();
    put_three(notes, b"page refused: script ", number, b": ")
}

// Puts the note of a page whose script of this number is refused for this cause.
fn put_script<N: Sink>(notes: &mut N, script: u64, cause: &[u8]) -> Result<(), PutFault>
    ensures ok { PutWhole (N.seen notes.old) (N.seen notes.new)
        (script_note script cause.now) result }
    ensures fault { PutFront (N.seen notes.old) (N.seen notes.new)
        (script_note script cause.now) result }
    ensures counts { PutCounts (N.seen notes.old) (N.seen notes.new) result }
{
    match put_start(notes, script) {
        Ok(()) => put_two(notes, cause, b"\n"),
        Err(fault) => Err(fault),
    }
}

// Puts the note of a page whose script of this number breaks an early rule.
fn put_early<N: Sink>(notes: &mut N, script: u64, rule: EarlyRule) -> Result<(), PutFault>
    ensures ok { PutWhole (N.seen notes.old) (N.seen notes.new)
        (note_of (Status.PageRefused (Some (Refusal.Early script rule)))) result }
    ensures fault { PutFront (N.seen notes.old) (N.seen notes.new)
        (note_of (Status.PageRefused (Some (Refusal.Early script rule)))) result }
    ensures counts { PutCounts (N.seen notes.old) (N.seen notes.new) result }
{
    let mut digits = Buffer::new();
    match put_start(notes, script) {
        Ok(()) => {
            let number = digits.format(rule.number()).as_bytes();
            put_three(notes, b"early error ", number, b"\n")
        }
        Err(fault) => Err(fault),
    }
}

// Puts the note of a page that is refused for this cause.
fn put_refusal<N: Sink>(notes: &mut N, refusal: Refusal) -> Result<(), PutFault>
    ensures ok { PutWhole (N.seen notes.old) (N.seen notes.new)
        (note_of (Status.PageRefused (Some refusal))) result }
    ensures fault { PutFront (N.seen notes.old) (N.seen notes.new)
        (note_of (Status.PageRefused (Some refusal))) result }
    ensures counts { PutCounts (N.seen notes.old) (N.seen notes.new) result }
{
    match refusal {
        Refusal::NotUtf8 => notes.put(b"page refused: not utf-8\n"),
        Refusal::NotPage => notes.put(b"page refused: not a page\n"),
        Refusal::NotTokens(script) => put_script(notes, script, b"not tokens"),
        Refusal::NotScript(script) => put_script(notes, script, b"not a script"),
        Refusal::NotStrict(script) => put_script(notes, script, b"not strict"),
        Refusal::Early(script, rule) => put_early(notes, script, rule),
        Refusal::TooDeep(script) => put_script(notes, script, b"too deep"),
        Refusal::ReservedName(script) => put_script(notes, script, b"reserved name"),
        Refusal::NotForm(script) => put_script(notes, script, b"not in form"),
    }
}

// Puts the note of a page that is too large.
fn put_weight<N: Sink>(notes: &mut N, weight: Weight) -> Result<(), PutFault>
    ensures ok { PutWhole (N.seen notes.old) (N.seen notes.new)
        (note_of (Status.TooLarge weight)) result }
    ensures fault { PutFront (N.seen notes.old) (N.seen notes.new)
        (note_of (Status.TooLarge weight)) result }
    ensures counts { PutCounts (N.seen notes.old) (N.seen notes.new) result }
{
    let mut digits = Buffer::new();
    match put_things(notes, weight.things) {
        Ok(()) => {
            let text = digits.format(weight.text).as_bytes();
            put_two(notes, text, b" text\n")
        }
        Err(fault) => Err(fault),
    }
}

// Puts how many things a page has that is too large.
fn put_things<N: Sink>(notes: &mut N, things: u64) -> Result<(), PutFault>
    ensures ok { PutWhole (N.seen notes.old) (N.seen notes.new) (things_start things) result }
    ensures fault { PutFront (N.seen notes.old) (N.seen notes.new) (things_start things) result }
    ensures counts { PutCounts (N.seen notes.old) (N.seen notes.new) result }
{
    let mut digits = Buffer::new();
    let number = digits.format(things).as_bytes();
    put_three(notes, b"too large: ", number, b" things, ")
}

// Puts the note of a status.
fn put_note<N: Sink>(notes: &mut N, status: Status) -> Result<(), PutFault>
    ensures ok { PutWhole (N.seen notes.old) (N.seen notes.new) (note_of status) result }
    ensures fault { PutFront (N.seen notes.old) (N.seen notes.new) (note_of status) result }
    ensures counts { PutCounts (N.seen notes.old) (N.seen notes.new) result }
{
    let mut digits = Buffer::new();
    match status {
        Status::Ok => notes.put(b""),
        Status::PageRefused(None) => notes.put(b"page refused: too long\n"),
        Status::PageRefused(Some(refusal)) => put_refusal(notes, refusal),
        Status::Usage => notes.put(
            b"usage: imagen check P, replay P E, instrument P, save P E, stress N\n",
        ),
        Status::EventsRefused(item) => {
            let number = digits.format(item).as_bytes();
            put_three(notes, b"events refused: ", number, b"\n")
        }
        Status::ReadFault => notes.put(b"read fault\n"),
        Status::WriteFault => notes.put(b"write fault\n"),
        Status::TooLarge(weight) => put_weight(notes, weight),
        Status::OutOfMemory => notes.put(b"out of memory\n"),
        Status::KeeperFault => notes.put(b"keeper fault\n"),
        Status::NoSession => notes.put(b"no such session\n"),
        Status::VersionsUsed => notes.put(b"no version left\n"),
    }
}

/// Puts the note of a status: one line, and nothing where the command ended well. A fault of the notes changes nothing
/// else.
pub fn write_note<N: Sink>(notes: &mut N, status: Status)
    ensures note { Noted (note_of status) (N.seen notes.old) (N.seen notes.new) }
    ensures silent { status ≡ Status.Ok → notes.new ≡ notes.old }
{
    match status {
        Status::Ok => {}
        _ => {
            let _ = put_note(notes, status);
        }
    }
}

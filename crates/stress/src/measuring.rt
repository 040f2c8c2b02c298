//! What `stress` writes: the numbers of a generated page that is run whole, and moved after the first half of its events.

ghost use Rattle.std.specs.Prelude.{◌≡◌, ◌++◌, length, IfOk, IfErr, OnOk, Ok as Good};
ghost use Rattle.dom_tree.specs.Sound.{IsSound};
ghost use Rattle.event_file.specs.Events.{events_of};
ghost use Rattle.opened_pages.specs.Opened.{HaveNumbers};
ghost use Rattle.page_check.specs.Accept.{IsAccepted};
ghost use Rattle.page_maker.specs.Events.{event_list as events_text};
ghost use Rattle.page_maker.specs.Page.{page as page_text};
ghost use Rattle.stress.specs.Faring.{CountsLines, HasNoLine, IsMovedBy, IsUnmoved, IsWhole};
ghost use Rattle.stress.specs.Stress.{last_line, stress_line, IsMade, IsMoved, IsPartCount};
ghost use Rattle.stress.specs.Works.{stressing};
ghost use Rattle.outcomes.specs.Numbers.{number_words};
ghost use Rattle.outcomes.specs.Work.{GivesAlone};
ghost use Rattle.read_files.specs.Reading.{IsUntaken};

use event_file::{EventFault, NotEvents, events};
use generated_pages::{law_generated_lists_are_read, law_generated_pages_are_accepted};
use js_core::OutOfMemory;
use js_values::{Event, Line};
use migrate::{law_saved_pages_move, saved_text};
use outcomes::{Status, push_number};
use page_check::{CheckedPage, law_one_answer};
use page_maker::{event_list, page};
use read_files::{accept_page, run_page};
use session::Session;
use std::alloc::Global;

// The generated page, which is accepted.
fn made_page(alloc: Global, parts: u32) -> Result<CheckedPage, Status>
    ensures ok { IfOk result (IsAccepted (page_text parts)) }
    ensures sound { IfOk result (λ page. IsSound page.nodes) }
    ensures stops { IfErr result (λ status. status ≡ Status.OutOfMemory) }
{
    law_one_answer();
    law_generated_pages_are_accepted();
    match page(alloc, parts) {
        Ok(text) => accept_page(alloc, &text),
        Err(OutOfMemory) => Err(Status::OutOfMemory),
    }
}

// Its events, which are read.
fn made_events(alloc: Global, parts: u32) -> Result<Vec<Event>, Status>
    requires { IsPartCount parts }
    ensures ok { IfOk result (λ list. events_of (events_text parts) ≡ Good list.items) }
    ensures stops { IfErr result (λ status. status ≡ Status.OutOfMemory) }
{
    law_generated_lists_are_read();
    let text = match event_list(alloc, parts) {
        Ok(text) => text,
        Err(OutOfMemory) => return Err(Status::OutOfMemory),
    };
    match events(alloc, &text) {
        Ok(list) => Ok(list),
        Err(EventFault::Cause(NotEvents(number))) => Err(Status::EventsRefused(number)),
        Err(EventFault::OutOfMemory) => Err(Status::OutOfMemory),
    }
}

// Both.
fn made(alloc: Global, parts: u32) -> Result<(CheckedPage, Vec<Event>), Status>
    requires { IsPartCount parts }
    ensures ok { IfOk result (λ both. IsMade parts both.0 both.1.items) }
    ensures sound { IfOk result (λ both. IsSound both.0.nodes) }
    ensures stops { IfErr result (λ status. status ≡ Status.OutOfMemory) }
{
    let page = match made_page(alloc, parts) {
        Ok(page) => page,
        Err(status) => return Err(status),
    };
    match made_events(alloc, parts) {
        Ok(list) => Ok((page, list)),
        Err(status) => Err(status),
    }
}

// The session of the page after all of its events.
fn whole(alloc: Global, parts: u32) -> Result<Session, Status>
    requires { IsPartCount parts }
    ensures ok { IfOk result (λ s. IsWhole parts s.page) }
    ensures stops { IfErr result (λ status. status ≡ Status.OutOfMemory) }
{
    let (page, list) = match made(alloc, parts) {
        Ok(made) => made,
        Err(status) => return Err(status),
    };
    match run_page(alloc, page, &list) {
        Ok(session) => Ok(session),
        Err(OutOfMemory) => Err(Status::OutOfMemory),
    }
}

// How many lines the page of these bytes puts out under the events.
fn count_lines(alloc: Global, text: &[u8], list: &[Event]) -> Result<u64, Status>
    ensures ok { IfOk result (CountsLines text.now list.now) }
    ensures stops { IfErr result (IsUntaken text.now) }
{
    let page = match accept_page(alloc, text) {
        Ok(page) => page,
        Err(status) => return Err(status),
    };
    match run_page(alloc, page, list) {
        Ok(session) => Ok(session.lines().len() as u64),
        Err(OutOfMemory) => Err(Status::OutOfMemory),
    }
}

// Saves this page after the earlier events, and runs what was saved under the later ones: how many lines that puts out,
// and how many bytes it has.
fn move_page(
    alloc: Global,
    page: CheckedPage,
    earlier: &[Event],
    later: &[Event],
) -> Result<(u64, u64), Status>
    ensures ok { IfOk result (λ found.
        IsMovedBy page earlier.now later.now found.0 found.1) }
    ensures stops { IfErr result (IsUnmoved page earlier.now) }
{
    let text = match saved_text(alloc, page, earlier) {
        Ok(text) => text,
        Err(cause) => return Err(cause.status()),
    };
    match count_lines(alloc, &text, later) {
        Ok(lines) => Ok((lines, text.len() as u64)),
        Err(status) => Err(status),
    }
}

// Moves the generated page after the first half of its events.
fn moved(alloc: Global, parts: u32) -> Result<(u64, u64), Status>
    requires { IsPartCount parts }
    ensures ok { IfOk result (λ found. IsMoved parts found.0 found.1) }
    ensures stops { IfErr result (HasNoLine parts) }
{
    law_one_answer();
    law_saved_pages_move();
    let (page, list) = match made(alloc, parts) {
        Ok(made) => made,
        Err(status) => return Err(status),
    };
    let (earlier, later) = list.split_at(list.len() / 2);
    move_page(alloc, page, earlier, later)
}

// Appends a blank, the number and the words.
fn push_part(text: &mut Vec<u8>, number: u64, words: &[u8]) -> Result<(), OutOfMemory>
    ensures { OnOk result (text.new.items ≡ text.old.items ++ (number_words number ++ words.now)) }
{
    push_number(text, number)?;
    text.extend_from_slice(words)?;
    Ok(())
}

// Appends the last line, or LF where there is none.
fn push_last(text: &mut Vec<u8>, lines: &[Line]) -> Result<(), OutOfMemory>
    ensures { OnOk result (text.new.items ≡ text.old.items ++ last_line lines.now) }
{
    match lines.get(lines.len().saturating_sub(1)) {
        Some(line) => line.write(text),
        None => {
            text.push(b'\n')?;
            Ok(())
        }
    }
}

// The line of these numbers.
fn line_of(
    alloc: Global,
    parts: u32,
    lines: &[Line],
    after: u64,
    bytes: u64,
) -> Result<Vec<u8>, OutOfMemory>
    ensures { IfOk result (λ text. text.items
        ≡ stress_line parts (length lines.now) after bytes (last_line lines.now)) }
{
    let mut text = Vec::from_slice(alloc, b"stress")?;
    push_part(&mut text, u64::from(parts), b":")?;
    push_part(&mut text, lines.len() as u64, b" lines,")?;
    push_part(&mut text, after, b" after the move,")?;
    push_part(&mut text, bytes, b" bytes, ")?;
    push_last(&mut text, lines)?;
    Ok(text)
}

/// How the generated page with so many parts fares: how many lines it puts out under its events, how many of them come after the
/// first half of the events, how many bytes it has when it is saved between, and its last line. The events after that are those
/// of the saved page. It may be too large to be saved, and memory may run out.
pub fn stress(alloc: Global, parts: u32) -> Result<Vec<u8>, Status>
    requires { IsPartCount parts }
    ensures gives { GivesAlone (stressing parts) result }
{
    law_one_answer();
    law_generated_pages_are_accepted();
    law_generated_lists_are_read();
    let session = match whole(alloc, parts) {
        Ok(session) => session,
        Err(status) => return Err(status),
    };
    let (after, bytes) = match moved(alloc, parts) {
        Ok(found) => found,
        Err(status) => return Err(status),
    };
    match line_of(alloc, parts, session.lines(), after, bytes) {
        Ok(text) => Ok(text),
        Err(OutOfMemory) => Err(Status::OutOfMemory),
    }
}

//! Event files, as a table has them.

use event_file::{EventFault, NotEvents, events};
use js_core::{OutOfMemory, Units};
use js_values::Event;
use std::alloc::Global;

fn truth_word(truth: bool) -> &'static [u8] {
    if truth { b"true" } else { b"false" }
}

// Two texts with a comma between them.
fn push_pair(first: &Units, second: &Units, out: &mut Vec<u8>) -> Result<(), OutOfMemory> {
    first.to_line_text(out)?;
    out.push(b',')?;
    second.to_line_text(out)
}

fn push_flags(bubbles: bool, cancelable: bool, out: &mut Vec<u8>) -> Result<(), OutOfMemory> {
    out.push(b',')?;
    out.extend_from_slice(truth_word(bubbles))?;
    out.push(b',')?;
    out.extend_from_slice(truth_word(cancelable))?;
    Ok(())
}

fn push_parts(alloc: Global, event: &Event, out: &mut Vec<u8>) -> Result<(), OutOfMemory> {
    match event {
        Event::Fire {
            kind,
            at,
            bubbles,
            cancelable,
        } => {
            push_pair(kind, at, out)?;
            push_flags(*bubbles, *cancelable, out)
        }
        Event::Input { text, at } => push_pair(text, at, out),
        Event::Tick(length) => {
            let digits = format!(in alloc; "{length}")?;
            out.extend_from_slice(digits.as_bytes())?;
            Ok(())
        }
        Event::Call(name) => name.to_line_text(out),
        Event::Dom => Ok(()),
    }
}

fn kind_word(event: &Event) -> &'static [u8] {
    match event {
        Event::Fire { .. } => b"fire",
        Event::Input { .. } => b"input",
        Event::Tick(_) => b"tick",
        Event::Call(_) => b"call",
        Event::Dom => b"dom",
    }
}

// An event: a space, its kind, and its parts in parentheses.
fn push_event(alloc: Global, event: &Event, out: &mut Vec<u8>) -> Result<(), OutOfMemory> {
    out.push(b' ')?;
    out.extend_from_slice(kind_word(event))?;
    out.push(b'(')?;
    push_parts(alloc, event, out)?;
    out.push(b')')?;
    Ok(())
}

fn push_events(alloc: Global, events: &[Event], out: &mut Vec<u8>) -> Result<(), OutOfMemory> {
    for event in events {
        push_event(alloc, event, out)?;
    }
    Ok(())
}

/// How the bytes of an event file are read: `events` and each event, or `refused` and the number.
pub fn reading(alloc: Global, bytes: &[u8]) -> Result<Vec<u8>, OutOfMemory> {
    let mut out = Vec::new(alloc);
    match events(alloc, bytes) {
        Ok(events) => {
            out.extend_from_slice(b"events")?;
            push_events(alloc, events.as_slice(), &mut out)?;
        }
        Err(EventFault::Cause(NotEvents(number))) => {
            out.extend_from_slice(format!(in alloc; "refused {number}")?.as_bytes())?;
        }
        Err(EventFault::OutOfMemory) => return Err(OutOfMemory),
    }
    Ok(out)
}

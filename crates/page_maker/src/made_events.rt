//! The text of the list of events for a generated page.

ghost use Rattle.std.specs.Prelude.{◌≡◌, ◌<◌, ◌++◌, IfOk, OnOk};
ghost use Rattle.page_maker.specs.Events as spec;

use crate::generator::Generator;
use crate::text::{push_bytes, push_number};
use js_core::OutOfMemory;
use std::alloc::Global;

/// The kinds of events, of which a number chooses one.
const KINDS: u64 = 3;

/// No tick is so long, in milliseconds.
const TICK_END: u64 = 20;

/// The text of the list of events for the page with so many parts: as many events, and a last one that prints the sums.
pub fn event_list(alloc: Global, parts: u32) -> Result<Vec<u8>, OutOfMemory>
    ensures { IfOk result (λ text. text.items ≡ spec.event_list parts) }
{
    let mut out = Vec::new(alloc);
    push_bytes(b"[", &mut out)?;
    push_events(u64::from(parts), &mut out)?;
    push_total(&mut out)?;
    push_bytes(b"]", &mut out)?;
    Ok(out)
}

// The page drew as many numbers as it has parts; each event is chosen by one of those after them.
fn push_events(parts: u64, out: &mut Vec<u8>) -> Result<(), OutOfMemory>
    ensures { OnOk result (out.new.items ≡ out.old.items ++ spec.events parts parts) }
{
    let mut generator = Generator::after(parts);
    for _made in 0..parts {
        push_event(parts, generator.draw(), out)?;
        push_bytes(b",", out)?;
    }
    Ok(())
}

fn push_event(parts: u64, chosen: u64, out: &mut Vec<u8>) -> Result<(), OutOfMemory>
    requires some { 0 < parts }
    ensures { OnOk result (out.new.items ≡ out.old.items ++ spec.event parts chosen) }
{
    match chosen % KINDS {
        0 => push_click(1 + chosen / KINDS % parts, out),
        1 => push_tick(chosen / KINDS % TICK_END, out),
        _ => push_total(out),
    }
}

fn push_click(part: u64, out: &mut Vec<u8>) -> Result<(), OutOfMemory>
    ensures { OnOk result (out.new.items ≡ out.old.items ++ spec.click part) }
{
    push_bytes(b"{\"fire\":\"click\",\"at\":\"p", out)?;
    push_number(part, out)?;
    push_bytes(b"\"}", out)
}

fn push_tick(length: u64, out: &mut Vec<u8>) -> Result<(), OutOfMemory>
    ensures { OnOk result (out.new.items ≡ out.old.items ++ spec.tick length) }
{
    push_bytes(b"{\"tick\":", out)?;
    push_number(length, out)?;
    push_bytes(b"}", out)
}

fn push_total(out: &mut Vec<u8>) -> Result<(), OutOfMemory>
    ensures { OnOk result (out.new.items ≡ out.old.items ++ spec.total) }
{
    push_bytes(b"{\"call\":\"total\"}", out)
}

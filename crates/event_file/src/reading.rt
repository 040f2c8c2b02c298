//! Reading an event file.

ghost use Rattle.std.specs.Prelude.{◌≡◌, IfOk};
ghost use Rattle.std.specs.List.{All};
ghost use Rattle.js_values.specs.Event.{IsEvent};
ghost use Rattle.serde_json.specs.View.{items_view};
ghost use Rattle.event_file.specs.Events as spec;

use crate::fault::{EventFault, NotEvents};
use crate::item::to_event;
use js_core::EVENT_LIMIT;
use js_values::Event;
use serde_json::Value;
use std::alloc::Global;

// The events of the items.
fn each(alloc: Global, items: &[Value]) -> Result<Vec<Event>, EventFault>
    ensures found { spec.Finds (spec.events_from 1 (items_view items.now)) result }
    ensures sound { IfOk result (λ events. All IsEvent events.items) }
{
    let mut found = Vec::new(alloc);
    let mut number = 1;
    for item in items {
        if number > EVENT_LIMIT {
            return Err(EventFault::Cause(NotEvents(number)));
        }
        match to_event(alloc, item)? {
            Some(event) => found.push(event)?,
            None => return Err(EventFault::Cause(NotEvents(number))),
        }
        number += 1;
    }
    Ok(found)
}

/// The events that the bytes of an event file hold, a JSON array of these items:
///
/// - `{"fire":T,"at":I}`, optionally with `"bubbles":B` and `"cancelable":B`, which are true where absent;
/// - `{"input":X,"at":I}`;
/// - `{"tick":N}`, N an unsigned integer without point or exponent up to 1,000,000,000;
/// - `{"call":F}`;
/// - `{"dom":true}`.
///
/// T, I, X and F are any texts, and the keys of an item stand in any order.
pub fn events(alloc: Global, bytes: &[u8]) -> Result<Vec<Event>, EventFault>
    ensures found { spec.Finds (spec.events_of bytes.now) result }
    ensures sound { IfOk result (λ events. All IsEvent events.items) }
{
    match Value::from_slice(alloc, bytes) {
        Err(e) => {
            if e.is_memory() {
                Err(EventFault::OutOfMemory)
            } else {
                Err(EventFault::Cause(NotEvents(0)))
            }
        }
        Ok(value) => match value.as_array() {
            Some(items) => each(alloc, items),
            None => Err(EventFault::Cause(NotEvents(0))),
        },
    }
}

//! The event that an item is.

ghost use Rattle.std.specs.Prelude.{◌≡◌, ◌≤◌, IfOk, IfSome, option_map};
ghost use Rattle.js_core.specs.Text.{AllUnits, utf16_of};
ghost use Rattle.js_values.specs.Event.{IsEvent, longest_tick};
ghost use Rattle.serde_json.specs.View.{view};
ghost use Rattle.event_file.specs.Items as spec;

use crate::kind::Kind;
use js_core::{OutOfMemory, TICK_LIMIT, Units};
use js_values::Event;
use serde_json::Value;
use std::alloc::Global;

// The text at a key.
fn text_at<'a>(item: &'a Value, key: &str) -> Option<&'a str>
    ensures { option_map (λ s. s.now) result ≡ spec.text_at key.now (view item.now) }
{
    item.get(key).and_then(Value::as_str)
}

// The truth at a key, true where the item has none.
fn truth_at(item: &Value, key: &str) -> Option<bool>
    ensures { result ≡ spec.truth_at key.now (view item.now) }
{
    match item.get(key) {
        Some(truth) => truth.as_bool(),
        None => Some(true),
    }
}

// The length of a tick.
fn tick_of(item: &Value) -> Option<u64>
    ensures read { result ≡ spec.tick_of (view item.now) }
    ensures few { IfSome result (λ length. length ≤ longest_tick) }
{
    let length = item.get("tick").and_then(Value::as_u64)?;
    if length <= TICK_LIMIT {
        Some(length)
    } else {
        None
    }
}

// The text as 16-bit units.
fn text(alloc: Global, text: &str) -> Result<Units, OutOfMemory>
    ensures value { IfOk result (λ units. units ≡ utf16_of text.now) }
    ensures units { IfOk result AllUnits }
{
    let units = Units::from_utf8(alloc, text)?;
    let _units = units.as_slice();
    Ok(units)
}

fn fire(alloc: Global, item: &Value) -> Result<Option<Event>, OutOfMemory>
    ensures read { IfOk result (λ event. event ≡ spec.fire_of (view item.now)) }
    ensures sound { IfOk result (λ event. IfSome event IsEvent) }
{
    let Some(kind) = text_at(item, "fire") else {
        return Ok(None);
    };
    let Some(at) = text_at(item, "at") else {
        return Ok(None);
    };
    let Some(bubbles) = truth_at(item, "bubbles") else {
        return Ok(None);
    };
    let Some(cancelable) = truth_at(item, "cancelable") else {
        return Ok(None);
    };
    Ok(Some(Event::Fire {
        kind: text(alloc, kind)?,
        at: text(alloc, at)?,
        bubbles,
        cancelable,
    }))
}

fn input(alloc: Global, item: &Value) -> Result<Option<Event>, OutOfMemory>
    ensures read { IfOk result (λ event. event ≡ spec.input_of (view item.now)) }
    ensures sound { IfOk result (λ event. IfSome event IsEvent) }
{
    let Some(value) = text_at(item, "input") else {
        return Ok(None);
    };
    let Some(at) = text_at(item, "at") else {
        return Ok(None);
    };
    Ok(Some(Event::Input {
        text: text(alloc, value)?,
        at: text(alloc, at)?,
    }))
}

fn call(alloc: Global, item: &Value) -> Result<Option<Event>, OutOfMemory>
    ensures read { IfOk result (λ event. event ≡ spec.call_of (view item.now)) }
    ensures sound { IfOk result (λ event. IfSome event IsEvent) }
{
    match text_at(item, "call") {
        Some(name) => Ok(Some(Event::Call(text(alloc, name)?))),
        None => Ok(None),
    }
}

fn dom(item: &Value) -> Option<Event>
    ensures { result ≡ spec.dom_of (view item.now) }
{
    if item.get("dom").and_then(Value::as_bool) == Some(true) {
        Some(Event::Dom)
    } else {
        None
    }
}

// The event that an item of a kind is.
fn event_as(alloc: Global, kind: Kind, item: &Value) -> Result<Option<Event>, OutOfMemory>
    ensures read { IfOk result (λ event. event ≡ spec.event_as kind (view item.now)) }
    ensures sound { IfOk result (λ event. IfSome event IsEvent) }
{
    match kind {
        Kind::Fire => fire(alloc, item),
        Kind::Input => input(alloc, item),
        Kind::Tick => Ok(tick_of(item).map(Event::Tick)),
        Kind::Call => call(alloc, item),
        Kind::Dom => Ok(dom(item)),
    }
}

/// The event that an item is, where it is one.
pub fn to_event(alloc: Global, item: &Value) -> Result<Option<Event>, OutOfMemory>
    ensures read { IfOk result (λ event. event ≡ spec.event_of (view item.now)) }
    ensures sound { IfOk result (λ event. IfSome event IsEvent) }
{
    match Kind::of_item(item) {
        Some(kind) => {
            if kind.has_the_keys_of(item) {
                event_as(alloc, kind, item)
            } else {
                Ok(None)
            }
        }
        None => Ok(None),
    }
}

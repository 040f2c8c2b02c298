//! Rows of listeners and events (DOM Level 2 Events, interfaces EventTarget, DocumentEvent and Event).

ghost use Rattle.std.specs.Prelude.{◌≡◌, List, IfOk, bytes_eq};
ghost use Rattle.std.specs.Char.{to_ascii_lowercase};
ghost use Rattle.std.specs.List.{list_any};
ghost use Rattle.js_values.specs.declared.built_in.BuiltIn.TheVariants as built_in;
ghost use Rattle.js_values.specs.declared.value.Value.{Value};
ghost use Rattle.dom_tree.specs.Name.{folded};
ghost use Rattle.page_host.specs.Steps.{forgets, listens};
ghost use Rattle.page_meaning.specs.NodeRows.{change_listeners, create_event as spec_create, event_words, node_row};
ghost use Rattle.page_state.specs.Does.{Gives, itself};

use crate::judged::{found_document, found_event, found_node, text_argument};
use js_core::{OutOfMemory, Units};
use js_values::{NodeId, Throw, Value};
use page_host::Listener;
use page_state::{Fault, State, argument};
use std::alloc::Global;
use whole_ops::is_true;

/// `createEvent`
pub(crate) fn create_event(state: &mut State, this: &Value, args: &[Value]) -> Result<Value, Fault>
    ensures { Gives itself (λ calls. node_row calls
        built_in.NodePrototypeCreateEvent this.now args.now) state.old state.new result }
{
    let _document = found_document(state, this)?;
    let kind = text_argument(state, args, 0)?;
    new_event(state, &kind)
}

// A new event, where the text names a kind of events that may be made.
fn new_event(state: &mut State, kind: &Units) -> Result<Value, Fault>
    ensures { Gives itself (λ _. spec_create kind.now) state.old state.new result }
{
    if is_event_word(state.alloc(), kind)? {
        Ok(Value::Object(state.make_event()?))
    } else {
        Err(state.raise(Throw::NotSupported))
    }
}

// Whether it is one of the kinds of events that may be made, in any case.
fn is_event_word(alloc: Global, kind: &Units) -> Result<bool, OutOfMemory>
    ensures { IfOk result (λ answer. answer ≡ list_any (bytes_eq (folded kind.now)) event_words) }
{
    let word = fold(alloc, kind)?;
    Ok(word.is_among(&[b"event", b"events", b"htmlevents"]))
}

// The text with its ASCII letters in lower case.
fn fold(alloc: Global, text: &Units) -> Result<Units, OutOfMemory>
    ensures { IfOk result (λ word. word ≡ folded text.now) }
{
    let mut units = Vec::new(alloc);
    for unit in text.as_slice() {
        units.push(lower(*unit))?;
    }
    Units::of(alloc, units.as_slice())
}

fn lower(unit: u16) -> u16
    ensures { result ≡ to_ascii_lowercase unit }
{
    if matches!(unit, 0x41..=0x5a) {
        unit + 0x20
    } else {
        unit
    }
}

/// `addEventListener`
pub(crate) fn add_listener(state: &mut State, this: &Value, args: &[Value]) -> Result<Value, Fault>
    ensures { Gives itself (λ calls. node_row calls
        built_in.NodePrototypeAddEventListener this.now args.now) state.old state.new result }
{
    let target = found_node(state, this)?;
    listen(state, target, args)
}

// The listener that the arguments name is added at the node.
fn listen(state: &mut State, node: NodeId, args: &[Value]) -> Result<Value, Fault>
    ensures { Gives itself (λ calls. change_listeners listens calls node args.now) state.old
        state.new result }
{
    let kind = text_argument(state, args, 0)?;
    let function = argument(args, 1)?;
    let capture = is_true(&argument(args, 2)?);
    let call = state.callback(&function)?;
    state.listen(Listener {
        node,
        kind,
        call,
        capture,
    })?;
    Ok(Value::Undefined)
}

/// `removeEventListener`
pub(crate) fn remove_listener(
    state: &mut State,
    this: &Value,
    args: &[Value],
) -> Result<Value, Fault>
    ensures { Gives itself (λ calls. node_row calls
        built_in.NodePrototypeRemoveEventListener this.now args.now) state.old state.new result }
{
    let target = found_node(state, this)?;
    forget(state, target, args)
}

// The listener that the arguments name is removed from the node.
fn forget(state: &mut State, node: NodeId, args: &[Value]) -> Result<Value, Fault>
    ensures { Gives itself (λ calls. change_listeners forgets calls node args.now) state.old
        state.new result }
{
    let kind = text_argument(state, args, 0)?;
    let function = argument(args, 1)?;
    let capture = is_true(&argument(args, 2)?);
    let call = state.callback(&function)?;
    let listener = Listener {
        node,
        kind,
        call,
        capture,
    };
    state.forget(&listener);
    Ok(Value::Undefined)
}

/// `initEvent`
pub(crate) fn init_event(state: &mut State, this: &Value, args: &[Value]) -> Result<Value, Fault>
    ensures { Gives itself (λ calls. node_row calls
        built_in.EventPrototypeInitEvent this.now args.now) state.old state.new result }
{
    let at = found_event(state, this)?;
    let kind = text_argument(state, args, 0)?;
    let bubbles = is_true(&argument(args, 1)?);
    let cancelable = is_true(&argument(args, 2)?);
    state.init_event(at, kind, bubbles, cancelable)?;
    Ok(Value::Undefined)
}

/// `stopPropagation`
pub(crate) fn stop_propagation(state: &mut State, this: &Value) -> Result<Value, Fault>
    ensures { (vs : List Value) → Gives itself (λ calls. node_row calls
        built_in.EventPrototypeStopPropagation this.now vs) state.old state.new result }
{
    let at = found_event(state, this)?;
    state.stop_propagation(at)?;
    Ok(Value::Undefined)
}

/// `preventDefault`
pub(crate) fn prevent_default(state: &mut State, this: &Value) -> Result<Value, Fault>
    ensures { (vs : List Value) → Gives itself (λ calls. node_row calls
        built_in.EventPrototypePreventDefault this.now vs) state.old state.new result }
{
    let at = found_event(state, this)?;
    state.prevent_default(at)?;
    Ok(Value::Undefined)
}

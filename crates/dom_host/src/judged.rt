//! What the rows ask of `this` and of arguments.

ghost use Rattle.std.specs.Prelude.{◌≡◌, IfOk, OnOk};
ghost use Rattle.js_values.specs.declared.value.Value.TheVariants.{Text};
ghost use Rattle.dom_tree.specs.Node.{is_document as spec_document, is_element as spec_element};
ghost use Rattle.page_meaning.specs.Convert.{to_text};
ghost use Rattle.page_meaning.specs.ObjectRows.{argument as spec_argument};
ghost use Rattle.page_state.specs.Does.{Gives};
ghost use Rattle.page_state.specs.Finding.{Finds, event_of, node_of, node_of_kind};
ghost use Rattle.dom_host.specs.Rows.{IsThere};

use dom_tree::Kind;
use js_core::Units;
use js_values::{NodeId, ObjId, Throw, Value};
use page_state::{Fault, State, argument};

/// The node that a value is. Anything else is a wrong argument.
pub(crate) fn found_node(state: &mut State, value: &Value) -> Result<NodeId, Fault>
    ensures found { Finds (node_of state.old value.now) state.old state.new result }
    ensures there { IfOk result (λ node. IsThere state.new node) }
{
    match state.node_of(value) {
        Some(found) => Ok(found),
        None => Err(state.raise(Throw::WrongArgument)),
    }
}

/// The element that a value is.
pub(crate) fn found_element(state: &mut State, value: &Value) -> Result<NodeId, Fault>
    ensures { Finds (node_of_kind spec_element state.old value.now) state.old state.new result }
{
    let found = found_node(state, value)?;
    if is_element(&state.host().dom().content(found).kind) {
        Ok(found)
    } else {
        Err(state.raise(Throw::WrongArgument))
    }
}

/// The node of the document, which a value is.
pub(crate) fn found_document(state: &mut State, value: &Value) -> Result<NodeId, Fault>
    ensures { Finds (node_of_kind spec_document state.old value.now) state.old state.new result }
{
    let found = found_node(state, value)?;
    if is_document(&state.host().dom().content(found).kind) {
        Ok(found)
    } else {
        Err(state.raise(Throw::WrongArgument))
    }
}

fn is_element(kind: &Kind) -> bool
    ensures { result ≡ spec_element kind.now }
{
    matches!(kind, Kind::Element(_))
}

fn is_document(kind: &Kind) -> bool
    ensures { result ≡ spec_document kind.now }
{
    matches!(kind, Kind::Document)
}

/// The event that a value is.
pub(crate) fn found_event(state: &mut State, value: &Value) -> Result<ObjId, Fault>
    ensures { Finds (event_of state.old value.now) state.old state.new result }
{
    match event_in(state, value) {
        Some(at) => Ok(at),
        None => Err(state.raise(Throw::WrongArgument)),
    }
}

// The event that a value is, if it is one.
fn event_in(state: &State, value: &Value) -> Option<ObjId>
    ensures { result ≡ event_of state.now value.now }
{
    match value {
        Value::Object(at) => if state.event_parts(*at).is_some() {
            Some(*at)
        } else {
            None
        },
        _ => None,
    }
}

/// An argument as a text, which changes nothing.
pub(crate) fn text_argument(state: &mut State, args: &[Value], index: usize) -> Result<Units, Fault>
    ensures text { Gives Text (λ calls. to_text calls (spec_argument args.now index)) state.old
        state.new result }
    ensures same { OnOk result (state.new ≡ state.old) }
{
    let value = argument(args, index)?;
    state.to_text(&value)
}

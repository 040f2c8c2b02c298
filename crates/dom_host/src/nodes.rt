//! Rows that move nodes, and those of the document (DOM Level 2 Core, interfaces Node and Document).

ghost use Rattle.std.specs.Prelude.{◌≡◌, List, not};
ghost use Rattle.std.specs.Option.{ForSome};
ghost use Rattle.js_values.specs.declared.built_in.BuiltIn.TheVariants as built_in;
ghost use Rattle.js_values.specs.declared.value.Value.{Value};
ghost use Rattle.dom_tree.specs.DomText.{is_empty};
ghost use Rattle.dom_tree.specs.Node.{children_at};
ghost use Rattle.dom_tree.specs.Trees.{find_id};
ghost use Rattle.page_host.specs.HostNames.{node_value};
ghost use Rattle.page_meaning.specs.NodeRows as spec;
ghost use Rattle.page_meaning.specs.NodeRows.{node_row};
ghost use Rattle.page_state.specs.Does.{Gives, itself};
ghost use Rattle.dom_host.specs.Rows.{IsThere, settle_nodes};

use crate::judged::{found_document, found_node, text_argument};
use dom_tree::DomError;
use js_core::Units;
use js_values::{NodeId, Throw, Value};
use page_state::{Fault, State, argument};

/// `insertBefore`: null is the end, and undefined is of the wrong kind.
pub(crate) fn insert_before(state: &mut State, this: &Value, args: &[Value]) -> Result<Value, Fault>
    ensures { Gives itself (λ calls. node_row calls
        built_in.NodePrototypeInsertBefore this.now args.now) state.old state.new result }
{
    let given = argument(args, 0)?;
    let reference = argument(args, 1)?;
    let parent = found_node(state, this)?;
    let child = found_node(state, &given)?;
    insert_at(state, parent, child, &reference, given)
}

// The child is put before the reference, which null or a node is, and given.
fn insert_at(
    state: &mut State,
    parent: NodeId,
    child: NodeId,
    reference: &Value,
    given: Value,
) -> Result<Value, Fault>
    requires parent { IsThere state.old parent }
    requires child { IsThere state.old child }
    ensures { Gives itself (λ _. spec.insert_before parent child reference.now given) state.old
        state.new result }
{
    match reference {
        Value::Null => insert(state, parent, child, None, given),
        _ => {
            let before = found_node(state, reference)?;
            insert(state, parent, child, Some(before), given)
        }
    }
}

/// `appendChild`
pub(crate) fn append_child(state: &mut State, this: &Value, args: &[Value]) -> Result<Value, Fault>
    ensures { Gives itself (λ calls. node_row calls
        built_in.NodePrototypeAppendChild this.now args.now) state.old state.new result }
{
    let given = argument(args, 0)?;
    let parent = found_node(state, this)?;
    let child = found_node(state, &given)?;
    insert(state, parent, child, None, given)
}

// The child is put there, and given.
fn insert(
    state: &mut State,
    parent: NodeId,
    child: NodeId,
    before: Option<NodeId>,
    given: Value,
) -> Result<Value, Fault>
    requires parent { IsThere state.old parent }
    requires child { IsThere state.old child }
    requires before { ForSome before (λ r. IsThere state.old r) }
    ensures { Gives itself (λ _. spec.insert parent child before given) state.old state.new result }
{
    let answer = state.insert_before(parent, child, before);
    unless_refused(state, answer, given)
}

/// `replaceChild`
pub(crate) fn replace_child(state: &mut State, this: &Value, args: &[Value]) -> Result<Value, Fault>
    ensures { Gives itself (λ calls. node_row calls
        built_in.NodePrototypeReplaceChild this.now args.now) state.old state.new result }
{
    let first = argument(args, 0)?;
    let given = argument(args, 1)?;
    let parent = found_node(state, this)?;
    let child = found_node(state, &first)?;
    let old = found_node(state, &given)?;
    replace(state, parent, child, old, given)
}

// The child takes the place of the old one, which is given.
fn replace(
    state: &mut State,
    parent: NodeId,
    child: NodeId,
    old: NodeId,
    given: Value,
) -> Result<Value, Fault>
    requires parent { IsThere state.old parent }
    requires child { IsThere state.old child }
    requires old { IsThere state.old old }
    ensures { Gives itself (λ _. spec.replace parent child old given) state.old state.new result }
{
    let answer = state.replace_child(parent, child, old);
    unless_refused(state, answer, given)
}

/// `removeChild`
pub(crate) fn remove_child(state: &mut State, this: &Value, args: &[Value]) -> Result<Value, Fault>
    ensures { Gives itself (λ calls. node_row calls
        built_in.NodePrototypeRemoveChild this.now args.now) state.old state.new result }
{
    let given = argument(args, 0)?;
    let parent = found_node(state, this)?;
    let child = found_node(state, &given)?;
    take_out(state, parent, child, given)
}

// The child is taken out, and given.
fn take_out(state: &mut State, parent: NodeId, child: NodeId, given: Value) -> Result<Value, Fault>
    requires parent { IsThere state.old parent }
    requires child { IsThere state.old child }
    ensures { Gives itself (λ _. spec.remove parent child given) state.old state.new result }
{
    let answer = state.remove_child(parent, child);
    unless_refused(state, answer, given)
}

// What is given, or the error.
fn unless_refused(
    state: &mut State,
    answer: Result<(), DomError>,
    given: Value,
) -> Result<Value, Fault>
    ensures { Gives itself (λ _. settle_nodes answer given) state.old state.new result }
{
    match answer {
        Ok(()) => Ok(given),
        Err(error) => Err(state.raise(thrown(error))),
    }
}

// What is thrown where a change of nodes is refused.
fn thrown(error: DomError) -> Throw
    ensures { result ≡ spec.dom_throw error }
{
    match error {
        DomError::Hierarchy => Throw::Hierarchy,
        DomError::NotFound => Throw::NotFound,
        DomError::BadName => Throw::InvalidCharacter,
    }
}

/// `hasChildNodes`
pub(crate) fn has_child_nodes(state: &mut State, this: &Value) -> Result<Value, Fault>
    ensures { (vs : List Value) → Gives itself (λ calls. node_row calls
        built_in.NodePrototypeHasChildNodes this.now vs) state.old state.new result }
{
    let parent = found_node(state, this)?;
    Ok(Value::Bool(has_children(state, parent)))
}

fn has_children(state: &State, parent: NodeId) -> bool
    requires { IsThere state.now parent }
    ensures { result ≡ not (is_empty (children_at state.now.host.nodes parent.0)) }
{
    state.host().dom().first_child(parent).is_some()
}

/// `getElementById`
pub(crate) fn get_by_id(state: &mut State, this: &Value, args: &[Value]) -> Result<Value, Fault>
    ensures { Gives itself (λ calls. node_row calls
        built_in.NodePrototypeGetElementById this.now args.now) state.old state.new result }
{
    let _document = found_document(state, this)?;
    let id = text_argument(state, args, 0)?;
    Ok(object_with_id(state, &id))
}

// The object of the element with this id, or null.
fn object_with_id(state: &State, id: &Units) -> Value
    ensures { result ≡ node_value state.now.host.objects (find_id state.now.host.nodes id.now) }
{
    match state.host().dom().find_id(id) {
        Some(node) => Value::Object(state.host().object_of(node)),
        None => Value::Null,
    }
}

/// `createElement`
pub(crate) fn create_element(
    state: &mut State,
    this: &Value,
    args: &[Value],
) -> Result<Value, Fault>
    ensures { Gives itself (λ calls. node_row calls
        built_in.NodePrototypeCreateElement this.now args.now) state.old state.new result }
{
    let _document = found_document(state, this)?;
    let name = text_argument(state, args, 0)?;
    new_element(state, &name)
}

// A new element, where the text is a name.
fn new_element(state: &mut State, name: &Units) -> Result<Value, Fault>
    ensures { Gives itself (λ _. spec.create_element name.now) state.old state.new result }
{
    match state.make_element(name)? {
        Some(at) => Ok(Value::Object(at)),
        None => Err(state.raise(Throw::InvalidCharacter)),
    }
}

/// `createTextNode`
pub(crate) fn create_text(state: &mut State, this: &Value, args: &[Value]) -> Result<Value, Fault>
    ensures { Gives itself (λ calls. node_row calls
        built_in.NodePrototypeCreateTextNode this.now args.now) state.old state.new result }
{
    let _document = found_document(state, this)?;
    let words = text_argument(state, args, 0)?;
    Ok(Value::Object(state.make_text(&words)?))
}

/// `createComment`
pub(crate) fn create_comment(
    state: &mut State,
    this: &Value,
    args: &[Value],
) -> Result<Value, Fault>
    ensures { Gives itself (λ calls. node_row calls
        built_in.NodePrototypeCreateComment this.now args.now) state.old state.new result }
{
    let _document = found_document(state, this)?;
    let words = text_argument(state, args, 0)?;
    Ok(Value::Object(state.make_comment(&words)?))
}

//! What nodes have.

ghost use Rattle.std.specs.Prelude.{◌≡◌, ◌++◌, OnOk, option_copied};
ghost use Rattle.dom_tree.specs.Node.{children_at, node_at};
ghost use Rattle.heap_walker.specs.Heard.{AreHeard};
ghost use Rattle.heap_walker.specs.Things.{heard_at};
ghost use Rattle.page_meaning.specs.Properties.{class_at};
ghost use Rattle.rebuild_plan.specs.Nodes as saved;
ghost use Rattle.rebuild_plan.specs.Plan as spec;

use crate::moved::moved;
use crate::statement::Rebuild;
use dom_tree::Content;
use heap_walker::{Heard, Walked, children};
use js_core::{OutOfMemory, Units};
use js_values::{NodeId, ObjId};
use object_heap::Class;
use page_host::Listener;
use page_state::State;

// The node whose object it is, if it is one.
fn node_at(state: &State, at: ObjId) -> Option<NodeId>
    ensures { saved.IsNodeOf (class_at state.now at) result }
{
    match state.class(at) {
        Class::Node(node) => Some(*node),
        Class::Plain
        | Class::List
        | Class::Page { .. }
        | Class::Native(_)
        | Class::Bound { .. }
        | Class::Fault
        | Class::Math
        | Class::Window
        | Class::Event(_) => None,
    }
}

/// The children of a node are put under it.
pub fn push_children(
    state: &State,
    walked: &Walked,
    at: ObjId,
    place: ObjId,
    plan: &mut Vec<Rebuild>,
) -> Result<(), OutOfMemory>
    ensures { OnOk result (plan.new.items ≡ plan.old.items ++ spec.appends place
        (saved.node_as state.now.host walked.now.things.keys
        (class_at state.now at)).children) }
{
    let Some(node) = node_at(state, at) else {
        return Ok(());
    };
    let children = children(state.alloc(), state.host().dom(), node)?;
    push_appends(state, walked, place, children.as_slice(), plan)
}

fn push_appends(
    state: &State,
    walked: &Walked,
    place: ObjId,
    children: &[NodeId],
    plan: &mut Vec<Rebuild>,
) -> Result<(), OutOfMemory>
    ensures { OnOk result (plan.new.items ≡ plan.old.items ++ spec.appends place
        (saved.moved_nodes walked.now.things.keys state.now.host.objects children.now)) }
{
    let mut rest = children;
    while let [child, after @ ..] = rest {
        plan.push(Rebuild::Append {
            parent: place,
            child: moved(walked, state.host().object_of(*child)),
        })?;
        rest = after;
    }
    Ok(())
}

/// The attributes and the value of a node are set.
pub fn push_contents(
    state: &State,
    walked: &Walked,
    at: ObjId,
    place: ObjId,
    plan: &mut Vec<Rebuild>,
) -> Result<(), OutOfMemory>
    ensures { OnOk result (plan.new.items ≡ plan.old.items ++ (spec.attributes place
        (saved.node_as state.now.host walked.now.things.keys
        (class_at state.now at)).attributes
        ++ spec.set_value place (saved.node_as state.now.host walked.now.things.keys
        (class_at state.now at)).value)) }
{
    let Some(node) = node_at(state, at) else {
        return Ok(());
    };
    let dom = state.host().dom();
    if node.0 >= dom.count() {
        return Ok(());
    }
    push_content(place, dom.content(node), plan)
}

fn push_content(place: ObjId, content: &Content, plan: &mut Vec<Rebuild>) -> Result<(), OutOfMemory>
    ensures { OnOk result (plan.new.items ≡ plan.old.items
        ++ (spec.attributes place content.now.attributes
        ++ spec.set_value place content.now.value)) }
{
    push_attributes(place, content.attributes.as_slice(), plan)?;
    push_value(place, content.value.as_ref(), plan)
}

fn push_attributes(
    place: ObjId,
    attributes: &[(Units, Units)],
    plan: &mut Vec<Rebuild>,
) -> Result<(), OutOfMemory>
    ensures { OnOk result (plan.new.items ≡ plan.old.items
        ++ spec.attributes place attributes.now) }
{
    let mut rest = attributes;
    while let [attribute, after @ ..] = rest {
        plan.push(Rebuild::Attribute {
            node: place,
            name: attribute.0.clone()?,
            value: attribute.1.clone()?,
        })?;
        rest = after;
    }
    Ok(())
}

fn push_value(
    place: ObjId,
    value: Option<&Units>,
    plan: &mut Vec<Rebuild>,
) -> Result<(), OutOfMemory>
    ensures { OnOk result (plan.new.items ≡ plan.old.items
        ++ spec.set_value place (option_copied value.entry)) }
{
    let Some(text) = value else {
        return Ok(());
    };
    plan.push(Rebuild::SetValue {
        node: place,
        text: text.clone()?,
    })?;
    Ok(())
}

/// The listeners of a node are added.
pub fn push_listeners(
    state: &State,
    heard: &Heard,
    walked: &Walked,
    at: ObjId,
    place: ObjId,
    plan: &mut Vec<Rebuild>,
) -> Result<(), OutOfMemory>
    requires { AreHeard state.now.host.listeners heard.now }
    ensures { OnOk result (plan.new.items ≡ plan.old.items ++ spec.listens place
        (saved.node_as state.now.host walked.now.things.keys
        (class_at state.now at)).listeners) }
{
    let Some(node) = node_at(state, at) else {
        return Ok(());
    };
    push_listens(walked, place, heard.at(node), plan)
}

fn push_listens(
    walked: &Walked,
    place: ObjId,
    listeners: &[Listener],
    plan: &mut Vec<Rebuild>,
) -> Result<(), OutOfMemory>
    ensures { OnOk result (plan.new.items ≡ plan.old.items ++ spec.listens place
        (saved.moved_listeners walked.now.things.keys listeners.now)) }
{
    let mut rest = listeners;
    while let [listener, after @ ..] = rest {
        plan.push(Rebuild::Listen {
            node: place,
            kind: listener.kind.clone()?,
            call: moved(walked, listener.call),
            capture: listener.capture,
        })?;
        rest = after;
    }
    Ok(())
}

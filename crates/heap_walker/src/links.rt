//! What an object refers to, as far as it is a thing.

ghost use Rattle.std.specs.Prelude.{◌≡◌, ◌++◌, OnOk, [], ◌∷◌};
ghost use Rattle.object_heap.specs.Chain.{object_at};
ghost use Rattle.object_heap.specs.Property.{Props};
ghost use Rattle.dom_tree.specs.Node.{parent_at};
ghost use Rattle.heap_walker.specs.Heard.{AreHeard};
ghost use Rattle.heap_walker.specs.Things as spec;
ghost use Rattle.heap_walker.specs.Walking.{joined};
ghost use Rattle.object_shapes.specs.Links as shape;
ghost use Rattle.page_meaning.specs.Places.{document};
ghost use Rattle.page_meaning.specs.Properties.{class_at};

use crate::BUILT_IN_COUNT;
use crate::heard::Heard;
use crate::needs::needs_of;
use crate::nodes::{children, parent};
use code_table::FunctionCode;
use global_names::is_global_name;
use indexmap::IndexSet;
use js_core::{OutOfMemory, Units};
use js_values::{EnvId, NodeId, ObjId, Value};
use object_heap::{Class, Prop};
use page_host::Listener;
use page_state::{DOCUMENT, State, WINDOW, further};
use timer_queue::Live;

// The object is seen, if it is a thing.
#[tactic(auto, unfolding(page_meaning::specs::Places::built_in_count))]
fn see(state: &State, at: ObjId, seen: &mut IndexSet<u64>) -> Result<(), OutOfMemory>
    ensures { OnOk result (seen.new.keys ≡ joined state.now seen.old.keys (at.0 ∷ [])) }
{
    if at.0 > BUILT_IN_COUNT && at.0 < state.count() {
        seen.insert(at.0)?;
    }
    Ok(())
}

fn see_value(state: &State, value: &Value, seen: &mut IndexSet<u64>) -> Result<(), OutOfMemory>
    ensures { OnOk result (seen.new.keys
        ≡ joined state.now seen.old.keys (shape.value_links value.now)) }
{
    match value {
        Value::Object(at) => see(state, *at, seen),
        Value::Undefined | Value::Null | Value::Bool(_) | Value::Num(_) | Value::Text(_) => Ok(()),
    }
}

fn see_values(state: &State, values: &[Value], seen: &mut IndexSet<u64>) -> Result<(), OutOfMemory>
    ensures { OnOk result (seen.new.keys
        ≡ joined state.now seen.old.keys (shape.values_links values.now)) }
{
    let mut rest = values;
    while let [value, after @ ..] = rest {
        see_value(state, value, seen)?;
        rest = after;
    }
    Ok(())
}

fn see_proto(state: &State, at: ObjId, seen: &mut IndexSet<u64>) -> Result<(), OutOfMemory>
    ensures { OnOk result (seen.new.keys ≡ joined state.now seen.old.keys
        (shape.proto_links (object_at state.now.heap.objects at.0).proto)) }
{
    match state.proto(at) {
        Some(proto) => see(state, proto, seen),
        None => Ok(()),
    }
}

// What the own properties of an object refer to.
fn see_properties(state: &State, at: ObjId, seen: &mut IndexSet<u64>) -> Result<(), OutOfMemory>
    ensures { OnOk result (seen.new.keys ≡ joined state.now seen.old.keys
        (shape.props_links (object_at state.now.heap.objects at.0).props)) }
{
    let mut place = 0;
    while let Some((_, property)) = state.own_at(at, place) {
        see_value(state, &property.value, seen)?;
        place = further(place, 1)?;
    }
    Ok(())
}

// What the needed variables of a function hold.
fn see_needs(
    state: &State,
    needs: &[(Units, Value)],
    seen: &mut IndexSet<u64>,
) -> Result<(), OutOfMemory>
    ensures { OnOk result (seen.new.keys
        ≡ joined state.now seen.old.keys (spec.needs_links needs.now)) }
{
    let mut rest = needs;
    while let [need, after @ ..] = rest {
        see_value(state, &need.1, seen)?;
        rest = after;
    }
    Ok(())
}

fn see_function(
    state: &State,
    code: &FunctionCode,
    env: Option<EnvId>,
    seen: &mut IndexSet<u64>,
) -> Result<(), OutOfMemory>
    ensures { OnOk result (seen.new.keys ≡ joined state.now seen.old.keys
        (spec.needs_links (spec.needs_of state.now env code.now))) }
{
    let needs = needs_of(state, code, env)?;
    see_needs(state, needs.as_slice(), seen)
}

// The parts of a bound function.
#[tactic(auto, using(crate::proofs::Joining::joined_both))]
fn see_parts(
    state: &State,
    target: ObjId,
    this: &Value,
    args: &[Value],
    seen: &mut IndexSet<u64>,
) -> Result<(), OutOfMemory>
    ensures { OnOk result (seen.new.keys ≡ joined state.now seen.old.keys
        (target.0 ∷ (shape.value_links this.now ++ shape.values_links args.now))) }
{
    see(state, target, seen)?;
    see_value(state, this, seen)?;
    see_values(state, args, seen)
}

fn see_class(state: &State, at: ObjId, seen: &mut IndexSet<u64>) -> Result<(), OutOfMemory>
    ensures { OnOk result (seen.new.keys ≡ joined state.now seen.old.keys
        (spec.class_links state.now (class_at state.now at))) }
{
    match state.class(at) {
        Class::Page { code, env } => see_function(state, code, *env, seen),
        Class::Bound { target, this, args } => {
            see_parts(state, *target, this, args.as_slice(), seen)
        }
        Class::Plain
        | Class::List
        | Class::Native(_)
        | Class::Fault
        | Class::Math
        | Class::Window
        | Class::Node(_)
        | Class::Event(_) => Ok(()),
    }
}

// The object of a node.
fn see_node_object(state: &State, node: NodeId, seen: &mut IndexSet<u64>) -> Result<(), OutOfMemory>
    ensures { OnOk result (seen.new.keys ≡ joined state.now seen.old.keys
        (spec.nodes_links state.now.host.objects (node ∷ []))) }
{
    see(state, state.host().object_of(node), seen)
}

fn see_parent(state: &State, node: NodeId, seen: &mut IndexSet<u64>) -> Result<(), OutOfMemory>
    ensures { OnOk result (seen.new.keys ≡ joined state.now seen.old.keys
        (spec.parent_links state.now.host.objects (parent_at state.now.host.nodes node.0))) }
{
    match parent(state.host().dom(), node) {
        Some(parent) => see_node_object(state, parent, seen),
        None => Ok(()),
    }
}

// The objects of nodes.
fn see_nodes(state: &State, nodes: &[NodeId], seen: &mut IndexSet<u64>) -> Result<(), OutOfMemory>
    ensures { OnOk result (seen.new.keys ≡ joined state.now seen.old.keys
        (spec.nodes_links state.now.host.objects nodes.now)) }
{
    let mut rest = nodes;
    while let [node, after @ ..] = rest {
        see_node_object(state, *node, seen)?;
        rest = after;
    }
    Ok(())
}

// The functions of listeners.
fn see_calls(
    state: &State,
    listeners: &[Listener],
    seen: &mut IndexSet<u64>,
) -> Result<(), OutOfMemory>
    ensures { OnOk result (seen.new.keys
        ≡ joined state.now seen.old.keys (spec.calls_links listeners.now)) }
{
    let mut rest = listeners;
    while let [listener, after @ ..] = rest {
        see(state, listener.call, seen)?;
        rest = after;
    }
    Ok(())
}

// The nodes next to a node, and its listeners.
#[tactic(auto, using(crate::proofs::Joining::joined_both))]
fn see_node(
    state: &State,
    heard: &Heard,
    node: NodeId,
    seen: &mut IndexSet<u64>,
) -> Result<(), OutOfMemory>
    requires { AreHeard state.now.host.listeners heard.now }
    ensures { OnOk result (seen.new.keys
        ≡ joined state.now seen.old.keys (spec.node_links state.now.host node)) }
{
    see_parent(state, node, seen)?;
    let children = children(state.alloc(), state.host().dom(), node)?;
    see_nodes(state, children.as_slice(), seen)?;
    see_calls(state, heard.at(node), seen)
}

// The target of an event.
fn see_target(
    state: &State,
    target: Option<ObjId>,
    seen: &mut IndexSet<u64>,
) -> Result<(), OutOfMemory>
    ensures { OnOk result (seen.new.keys
        ≡ joined state.now seen.old.keys (shape.proto_links target)) }
{
    match target {
        Some(at) => see(state, at, seen),
        None => Ok(()),
    }
}

// What only nodes and events refer to.
fn see_host(
    state: &State,
    heard: &Heard,
    at: ObjId,
    seen: &mut IndexSet<u64>,
) -> Result<(), OutOfMemory>
    requires { AreHeard state.now.host.listeners heard.now }
    ensures { OnOk result (seen.new.keys ≡ joined state.now seen.old.keys
        (spec.host_links state.now.host (class_at state.now at))) }
{
    match state.class(at) {
        Class::Node(node) => see_node(state, heard, *node, seen),
        Class::Event(parts) => see_target(state, parts.target, seen),
        Class::Plain
        | Class::List
        | Class::Page { .. }
        | Class::Native(_)
        | Class::Bound { .. }
        | Class::Fault
        | Class::Math
        | Class::Window => Ok(()),
    }
}

/// All that an object refers to is seen, as far as it is a thing.
#[tactic(auto, using(crate::proofs::Joining::joined_both))]
pub fn see_links(
    state: &State,
    heard: &Heard,
    at: ObjId,
    seen: &mut IndexSet<u64>,
) -> Result<(), OutOfMemory>
    requires { AreHeard state.now.host.listeners heard.now }
    ensures { OnOk result (seen.new.keys
        ≡ joined state.now seen.old.keys (spec.links state.now at.0)) }
{
    see_proto(state, at, seen)?;
    see_class(state, at, seen)?;
    see_host(state, heard, at, seen)?;
    see_properties(state, at, seen)
}

// The functions of timers.
fn see_live(state: &State, timers: &[Live], seen: &mut IndexSet<u64>) -> Result<(), OutOfMemory>
    ensures { OnOk result (seen.new.keys
        ≡ joined state.now seen.old.keys (spec.timers_links timers.now)) }
{
    let mut rest = timers;
    while let [timer, after @ ..] = rest {
        see(state, timer.call, seen)?;
        rest = after;
    }
    Ok(())
}

fn see_timers(state: &State, seen: &mut IndexSet<u64>) -> Result<(), OutOfMemory>
    ensures { OnOk result (seen.new.keys
        ≡ joined state.now seen.old.keys (spec.timers_links state.now.host.timers)) }
{
    see_live(state, state.host().timers(), seen)
}

// What a property of the global object refers to, if scripts made it; others can follow.
fn see_global(
    state: &State,
    name: &Units,
    property: &Prop,
    seen: &mut IndexSet<u64>,
) -> Result<(), OutOfMemory>
    ensures { OnOk result ((others : Props) →
        joined state.now seen.new.keys (shape.props_links (spec.made_globals others))
        ≡ joined state.now seen.old.keys
        (shape.props_links (spec.made_globals ((name.now, property.now) ∷ others)))) }
{
    if is_global_name(name) {
        return Ok(());
    }
    see_value(state, &property.value, seen)?;
    Ok(())
}

// What globals refer to.
fn see_globals(state: &State, seen: &mut IndexSet<u64>) -> Result<(), OutOfMemory>
    ensures { OnOk result (seen.new.keys ≡ joined state.now seen.old.keys
        (shape.props_links (spec.globals_of state.now))) }
{
    let mut place = 0;
    while let Some((name, property)) = state.own_at(WINDOW, place) {
        see_global(state, name, property, seen)?;
        place = further(place, 1)?;
    }
    Ok(())
}

#[tactic(auto, unfolding(page_meaning::specs::Places::built_in_count))]
fn see_document(state: &State, heard: &Heard, seen: &mut IndexSet<u64>) -> Result<(), OutOfMemory>
    requires { AreHeard state.now.host.listeners heard.now }
    ensures { OnOk result (seen.new.keys
        ≡ joined state.now seen.old.keys (spec.links state.now document.0)) }
{
    see_links(state, heard, DOCUMENT, seen)
}

/// What globals, the document and timers refer to is seen, as far as it is a thing.
#[tactic(auto, using(crate::proofs::Joining::joined_both))]
pub fn see_roots(state: &State, heard: &Heard, seen: &mut IndexSet<u64>) -> Result<(), OutOfMemory>
    requires { AreHeard state.now.host.listeners heard.now }
    ensures { OnOk result (seen.new.keys
        ≡ joined state.now seen.old.keys (spec.roots state.now)) }
{
    see_globals(state, seen)?;
    see_document(state, heard, seen)?;
    see_timers(state, seen)
}

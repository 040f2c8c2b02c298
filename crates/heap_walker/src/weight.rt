//! What a page weighs that is saved.

ghost use Rattle.std.specs.Prelude.{◌≡◌, ◌∷◌, ◌&&◌, ℕ, List, IfOk, OnOk, bytes_eq, length, max};
ghost use Rattle.dom_tree.specs.Node.{node_at};
ghost use Rattle.js_print.specs.Printing.{code_text};
ghost use Rattle.object_heap.specs.Chain.{object_at};
ghost use Rattle.object_heap.specs.Define.{length_name};
ghost use Rattle.object_heap.specs.Property.{Props};
ghost use Rattle.heap_walker.specs.Heard.{AreHeard};
ghost use Rattle.heap_walker.specs.Things as things;
ghost use Rattle.heap_walker.specs.Weight as spec;
ghost use Rattle.heap_walker.specs.declared.weight.Weight.{Weight as Pure};
ghost use Rattle.page_meaning.specs.Properties.{class_at};

use crate::heard::Heard;
use crate::needs::needs_of;
use crate::reached::{Walked, walk};
use code_table::FunctionCode;
use dom_tree::{Content, Dom, Kind};
use global_names::is_global_name;
use js_core::{OutOfMemory, Units};
use js_print::{code_length, unnamed_length};
use js_values::{EnvId, NodeId, ObjId, Value};
use object_heap::{Class, Prop};
use page_host::{Listener, PageHost};
use page_state::{DOCUMENT, State, WINDOW, further};
use std::alloc::Global;
use timer_queue::Live;

/// How much a saved page holds.
#[derive(Clone, Copy, PartialEq, Eq)]
pub struct Weight {
    /// The things; the own properties of things, of the document and of the global object that are written; the arguments that are
    /// bound; the needed variables of functions; attributes and listeners; the live timers, and the ids up to the greatest of one; at
    /// most 2^64 - 1.
    pub things: u64,
    /// Six bytes for each unit of the names, types and texts of those, and the bytes of the printed functions; at most 2^64 - 1.
    pub text: u64,
}

impl Weight {
    // More things, and more units of text.
    fn add(&mut self, things: u64, units: u64)
        ensures { spec.Adds self.old self.new (spec.load things (spec.units units)) }
    {
        self.things = self.things.saturating_add(things);
        self.text = self.text.saturating_add(units.saturating_mul(6));
    }

    // More bytes of text.
    fn add_bytes(&mut self, bytes: u64)
        ensures { spec.Adds self.old self.new (spec.load 0 bytes) }
    {
        self.text = self.text.saturating_add(bytes);
    }

    // A property of a thing, if it is written; others can follow.
    fn add_written(&mut self, made: bool, name: &Units, property: &Prop)
        ensures { (others : Props) (w : Pure) →
            spec.Adds self.new w (spec.props_load (spec.written made others)) →
            spec.Adds self.old w
            (spec.props_load (spec.written made ((name.now, property.now) ∷ others))) }
    {
        if is_made_length(made, name) {
            return;
        }
        self.add_named(name, &property.value);
    }

    // A property of the global object, if scripts made it; others can follow.
    fn add_global(&mut self, name: &Units, property: &Prop)
        ensures { (others : Props) (w : Pure) →
            spec.Adds self.new w (spec.props_load (things.made_globals others)) →
            spec.Adds self.old w
            (spec.props_load (things.made_globals ((name.now, property.now) ∷ others))) }
    {
        if is_global_name(name) {
            return;
        }
        self.add_named(name, &property.value);
    }

    // Needed variables.
    fn add_needs(&mut self, needs: &[(Units, Value)])
        ensures { spec.Adds self.old self.new (spec.needs_load needs.now) }
    {
        let mut rest = needs;
        while let [need, after @ ..] = rest {
            self.add_named(&need.0, &need.1);
            rest = after;
        }
    }

    // What a bound function binds besides its target.
    fn add_bound(&mut self, this: &Value, args: &[Value])
        ensures { spec.Adds self.old self.new
            (spec.together (spec.value_load this.now) (spec.arguments_load args.now)) }
    {
        self.add_value(this);
        self.add_arguments(args);
    }

    // A value that is no thing of its own.
    fn add_value(&mut self, value: &Value)
        ensures { spec.Adds self.old self.new (spec.value_load value.now) }
    {
        self.add(0, value_units(value));
    }

    // An argument that is bound.
    fn add_argument(&mut self, value: &Value)
        ensures { spec.Adds self.old self.new (spec.argument_load value.now) }
    {
        self.add(1, value_units(value));
    }

    // A name with its value.
    fn add_named(&mut self, name: &Units, value: &Value)
        ensures { spec.Adds self.old self.new (spec.named_load name.now value.now) }
    {
        self.add(1, length(name).saturating_add(value_units(value)));
    }

    // A text that is no thing of its own.
    fn add_text(&mut self, text: &Units)
        ensures { spec.Adds self.old self.new (spec.text_load text.now) }
    {
        self.add(0, length(text));
    }

    // An attribute.
    fn add_attribute(&mut self, name: &Units, value: &Units)
        ensures { spec.Adds self.old self.new (spec.attribute_load (name.now, value.now)) }
    {
        self.add(1, length(name).saturating_add(length(value)));
    }

    // A listener.
    fn add_listener(&mut self, listener: &Listener)
        ensures { spec.Adds self.old self.new (spec.listener_load listener.now) }
    {
        self.add(1, length(&listener.kind));
    }

    // Attributes.
    fn add_attributes(&mut self, attributes: &[(Units, Units)])
        ensures { spec.Adds self.old self.new (spec.attributes_load attributes.now) }
    {
        let mut rest = attributes;
        while let [attribute, after @ ..] = rest {
            self.add_attribute(&attribute.0, &attribute.1);
            rest = after;
        }
    }

    // What a node is.
    fn add_kind(&mut self, kind: &Kind)
        ensures { spec.Adds self.old self.new (spec.kind_load kind.now) }
    {
        match kind {
            Kind::Document => {}
            Kind::Element(text) | Kind::Text(text) | Kind::Comment(text) => self.add_text(text),
        }
    }

    // The value that was set, if one was.
    fn add_set(&mut self, value: &Option<Units>)
        ensures { spec.Adds self.old self.new (spec.set_load value.now) }
    {
        match value {
            Some(text) => self.add_text(text),
            None => {}
        }
    }

    // A node without its listeners.
    fn add_content(&mut self, content: &Content)
        ensures { spec.Adds self.old self.new (spec.content_load content.now) }
    {
        self.add_kind(&content.kind);
        self.add_attributes(content.attributes.as_slice());
        self.add_set(&content.value);
    }

    // Listeners.
    fn add_listeners(&mut self, listeners: &[Listener])
        ensures { spec.Adds self.old self.new (spec.listeners_load listeners.now) }
    {
        let mut rest = listeners;
        while let [listener, after @ ..] = rest {
            self.add_listener(listener);
            rest = after;
        }
    }

    // A node without its listeners, if it is there.
    fn add_content_of(&mut self, dom: &Dom, node: NodeId)
        ensures { spec.Adds self.old self.new
            (spec.content_load (node_at dom.now node.0).content) }
    {
        if node.0 >= dom.count() {
            return;
        }
        self.add_content(dom.content(node));
    }

    // A node with its listeners.
    fn add_node(&mut self, host: &PageHost, heard: &Heard, node: NodeId)
        requires { AreHeard host.now.listeners heard.now }
        ensures { spec.Adds self.old self.new (spec.node_load host.now node) }
    {
        self.add_content_of(host.dom(), node);
        self.add_listeners(heard.at(node));
    }

    // Timers, and the ids up to the greatest.
    fn add_timers(&mut self, timers: &[Live])
        ensures { spec.Adds self.old self.new (spec.timers_load timers.now) }
    {
        self.add(timers.len() as u64, 0);
        self.add(greatest(timers), 0);
    }

    // Arguments that are bound.
    fn add_arguments(&mut self, args: &[Value])
        ensures { spec.Adds self.old self.new (spec.arguments_load args.now) }
    {
        let mut rest = args;
        while let [value, after @ ..] = rest {
            self.add_argument(value);
            rest = after;
        }
    }
}

// Whether it is the `length` that a function is made with.
fn is_made_length(made: bool, name: &Units) -> bool
    ensures { result ≡ (made && bytes_eq name.now length_name) }
{
    made && name.spells(b"length")
}

fn length(text: &Units) -> u64
    ensures { result ≡ length text.now }
{
    text.as_slice().len() as u64
}

fn value_units(value: &Value) -> u64
    ensures { result ≡ spec.value_units value.now }
{
    match value {
        Value::Text(text) => length(text),
        Value::Undefined | Value::Null | Value::Bool(_) | Value::Num(_) | Value::Object(_) => 0,
    }
}

/// The greatest id of a live timer, or 0.
pub fn greatest(timers: &[Live]) -> u64
    ensures { result ≡ spec.greatest timers.now }
{
    let mut place = timers.len();
    let mut found = 0;
    while place > 0 {
        place -= 1;
        found = larger(u64::from(timers[place].id), found);
    }
    found
}

fn larger(one: u64, other: u64) -> u64
    ensures { result ≡ max one other }
{
    if one < other { other } else { one }
}

/// What a page weighs that is saved.
pub fn weigh(state: &State) -> Result<Weight, OutOfMemory>
    ensures { IfOk result (λ weight. spec.IsWeight state.now weight) }
{
    let walked = walk(state)?;
    weight_of(state, &walked)
}

/// What the things that were walked weigh, with the globals.
pub fn weight_of(state: &State, walked: &Walked) -> Result<Weight, OutOfMemory>
    ensures { IfOk result (λ weight.
        weight ≡ spec.told (spec.load_of state.now walked.now.things.keys)) }
{
    let heard = Heard::of_page(state)?;
    let mut weight = Weight { things: 0, text: 0 };
    add_globals(state, &mut weight)?;
    add_document(state, &heard, &mut weight)?;
    add_timers(state, &mut weight);
    for place in walked.things.as_slice() {
        add_thing(state, &heard, ObjId(*place), &mut weight)?;
    }
    Ok(weight)
}

fn add_globals(state: &State, weight: &mut Weight) -> Result<(), OutOfMemory>
    ensures { OnOk result (spec.Adds weight.old weight.new
        (spec.props_load (things.globals_of state.now))) }
{
    let mut place = 0;
    while let Some((name, property)) = state.own_at(WINDOW, place) {
        weight.add_global(name, property);
        place = further(place, 1)?;
    }
    Ok(())
}

// The document is no thing, but what it has is saved.
#[tactic(auto, unfolding(page_meaning::specs::Places::built_in_count))]
fn add_document(state: &State, heard: &Heard, weight: &mut Weight) -> Result<(), OutOfMemory>
    requires { AreHeard state.now.host.listeners heard.now }
    ensures { OnOk result (spec.Adds weight.old weight.new (spec.document_load state.now)) }
{
    add_object(state, heard, DOCUMENT, weight)
}

fn add_timers(state: &State, weight: &mut Weight)
    ensures { spec.Adds weight.old weight.new (spec.timers_load state.now.host.timers) }
{
    weight.add_timers(state.host().timers());
}

fn add_thing(
    state: &State,
    heard: &Heard,
    at: ObjId,
    weight: &mut Weight,
) -> Result<(), OutOfMemory>
    requires { AreHeard state.now.host.listeners heard.now }
    ensures { OnOk result (spec.Adds weight.old weight.new
        (spec.thing_load state.now (object_at state.now.heap.objects at.0))) }
{
    weight.add(1, 0);
    add_object(state, heard, at, weight)?;
    Ok(())
}

// What an object has.
fn add_object(
    state: &State,
    heard: &Heard,
    at: ObjId,
    weight: &mut Weight,
) -> Result<(), OutOfMemory>
    requires { AreHeard state.now.host.listeners heard.now }
    ensures { OnOk result (spec.Adds weight.old weight.new
        (spec.object_load state.now (object_at state.now.heap.objects at.0))) }
{
    add_class(state, heard, at, weight)?;
    add_properties(state, at, has_made_length(state.class(at)), weight)?;
    Ok(())
}

fn has_made_length(class: &Class) -> bool
    ensures { result ≡ spec.has_made_length class.now }
{
    match class {
        Class::Page { .. } | Class::Bound { .. } => true,
        Class::Plain
        | Class::List
        | Class::Native(_)
        | Class::Fault
        | Class::Math
        | Class::Window
        | Class::Node(_)
        | Class::Event(_) => false,
    }
}

// The own properties of an object, as far as they are written.
fn add_properties(
    state: &State,
    at: ObjId,
    made: bool,
    weight: &mut Weight,
) -> Result<(), OutOfMemory>
    ensures { OnOk result (spec.Adds weight.old weight.new
        (spec.props_load
        (spec.written made (object_at state.now.heap.objects at.0).props))) }
{
    let mut place = 0;
    while let Some((name, property)) = state.own_at(at, place) {
        weight.add_written(made, name, property);
        place = further(place, 1)?;
    }
    Ok(())
}

fn add_class(
    state: &State,
    heard: &Heard,
    at: ObjId,
    weight: &mut Weight,
) -> Result<(), OutOfMemory>
    requires { AreHeard state.now.host.listeners heard.now }
    ensures { OnOk result (spec.Adds weight.old weight.new
        (spec.class_load state.now (class_at state.now at))) }
{
    match state.class(at) {
        Class::Page { code, env } => add_function(state, code, *env, weight),
        Class::Bound { this, args, .. } => {
            weight.add_bound(this, args.as_slice());
            Ok(())
        }
        Class::Node(node) => {
            weight.add_node(state.host(), heard, *node);
            Ok(())
        }
        Class::Event(parts) => {
            weight.add_text(&parts.kind);
            Ok(())
        }
        Class::Plain
        | Class::List
        | Class::Native(_)
        | Class::Fault
        | Class::Math
        | Class::Window => Ok(()),
    }
}

// The printed code of a function, and its needed variables.
fn add_function(
    state: &State,
    code: &FunctionCode,
    env: Option<EnvId>,
    weight: &mut Weight,
) -> Result<(), OutOfMemory>
    ensures { OnOk result (spec.Adds weight.old weight.new
        (spec.together (spec.code_load code.now)
        (spec.needs_load (things.needs_of state.now env code.now)))) }
{
    let bytes = printed_length(state.alloc(), code)?;
    weight.add_bytes(bytes);
    let needs = needs_of(state, code, env)?;
    weight.add_needs(needs.as_slice());
    Ok(())
}

// How many bytes a function has as an expression, with its name where it is held with it (section 13).
fn printed_length(alloc: Global, code: &FunctionCode) -> Result<u64, OutOfMemory>
    ensures { IfOk result (λ bytes. bytes ≡ length (code_text code.now)) }
{
    match code.notes() {
        Some(notes) => Ok(notes.printed),
        None => found_length(alloc, code),
    }
}

// The same, where nothing is noted.
fn found_length(alloc: Global, code: &FunctionCode) -> Result<u64, OutOfMemory>
    ensures { IfOk result (λ bytes. bytes ≡ length (code_text code.now)) }
{
    if code.name().is_some() {
        return code_length(alloc, code.source());
    }
    unnamed_length(alloc, code.source())
}

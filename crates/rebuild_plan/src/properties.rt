//! The properties of things and of the global object.

ghost use Rattle.std.specs.Prelude.{◌≡◌, ◌++◌, ◌∷◌, ℕ, List, Option, OnOk, false, option_copied, option_map};
ghost use Rattle.js_values.specs.declared.ids.ObjId.{ObjId as Id};
ghost use Rattle.object_heap.specs.Chain.{object_at};
ghost use Rattle.object_heap.specs.Define.{length_name};
ghost use Rattle.object_heap.specs.Property.{Props, own_property};
ghost use Rattle.heap_walker.specs.Things.{globals_of, made_globals};
ghost use Rattle.page_meaning.specs.Places.{window};
ghost use Rattle.page_meaning.specs.Store.{Store};
ghost use Rattle.rebuild_plan.specs.Compact as saved;
ghost use Rattle.rebuild_plan.specs.Plan as spec;
ghost use Rattle.rebuild_plan.specs.declared.statement.Maker.TheVariants.{List as Array};

use crate::moved::{moved_prop, moved_value};
use crate::statement::Rebuild;
use global_names::is_global_name;
use heap_walker::Walked;
use js_core::{OutOfMemory, Units, ascii_text};
use js_values::ObjId;
use object_heap::{Class, Prop};
use page_state::{State, WINDOW, further};

/// The globals that scripts made are defined.
pub fn push_globals(
    state: &State,
    walked: &Walked,
    plan: &mut Vec<Rebuild>,
) -> Result<(), OutOfMemory>
    ensures { OnOk result (plan.new.items ≡ plan.old.items ++ spec.defines false false window
        (saved.moved_props walked.now.things.keys (globals_of state.now))) }
{
    let mut place = 0;
    while let Some((name, prop)) = state.own_at(WINDOW, place) {
        push_global(walked, name, prop, plan)?;
        place = further(place, 1)?;
    }
    Ok(())
}

// A property of the global object is defined, if scripts made it; others can follow.
fn push_global(
    walked: &Walked,
    name: &Units,
    prop: &Prop,
    plan: &mut Vec<Rebuild>,
) -> Result<(), OutOfMemory>
    ensures { OnOk result ((others : Props) →
        plan.new.items ++ spec.defines false false window
        (saved.moved_props walked.now.things.keys (made_globals others))
        ≡ plan.old.items ++ spec.defines false false window
        (saved.moved_props walked.now.things.keys
        (made_globals ((name.now, prop.now) ∷ others)))) }
{
    if is_global_name(name) {
        return Ok(());
    }
    push_property(walked, WINDOW, false, false, name, prop, plan)?;
    Ok(())
}

/// The properties of an object are defined at its place.
pub fn push_fill(
    state: &State,
    walked: &Walked,
    at: ObjId,
    place: ObjId,
    plan: &mut Vec<Rebuild>,
) -> Result<(), OutOfMemory>
    ensures { OnOk result (plan.new.items ≡ plan.old.items ++ spec.fill place
        (saved.thing_at state.now walked.now.things.keys at.0)) }
{
    push_properties(state, walked, at, place, plan)?;
    push_length(state, walked, at, place, plan)?;
    Ok(())
}

// All but an array's length.
fn push_properties(
    state: &State,
    walked: &Walked,
    at: ObjId,
    place: ObjId,
    plan: &mut Vec<Rebuild>,
) -> Result<(), OutOfMemory>
    ensures { OnOk result (plan.new.items ≡ plan.old.items ++ spec.defines
        (spec.has_length (saved.maker_at state.now walked.now.things.keys at.0))
        (spec.has_prototype (saved.maker_at state.now walked.now.things.keys at.0))
        place (saved.props_at state.now walked.now.things.keys at.0)) }
{
    let length = has_length(state.class(at));
    let prototype = has_prototype(state.class(at));
    let mut index = 0;
    while let Some((name, prop)) = state.own_at(at, index) {
        push_property(walked, place, length, prototype, name, prop, plan)?;
        index = further(index, 1)?;
    }
    Ok(())
}

// Whether an object of the class is made with a `length`.
fn has_length(class: &Class) -> bool
    ensures { (s : Store) (things : List ℕ) (proto : Option Id) →
        result ≡ spec.has_length (saved.maker_as s things proto class.now) }
{
    match class {
        Class::List | Class::Page { .. } | Class::Bound { .. } => true,
        Class::Plain
        | Class::Native(_)
        | Class::Fault
        | Class::Math
        | Class::Window
        | Class::Node(_)
        | Class::Event(_) => false,
    }
}

// Whether an object of the class is made with a `prototype`.
fn has_prototype(class: &Class) -> bool
    ensures { (s : Store) (things : List ℕ) (proto : Option Id) →
        result ≡ spec.has_prototype (saved.maker_as s things proto class.now) }
{
    match class {
        Class::Page { .. } => true,
        Class::Plain
        | Class::List
        | Class::Native(_)
        | Class::Bound { .. }
        | Class::Fault
        | Class::Math
        | Class::Window
        | Class::Node(_)
        | Class::Event(_) => false,
    }
}

// A property of an object that is made with a `length` or not, and with a `prototype` or not.
fn push_property(
    walked: &Walked,
    place: ObjId,
    length: bool,
    prototype: bool,
    name: &Units,
    prop: &Prop,
    plan: &mut Vec<Rebuild>,
) -> Result<(), OutOfMemory>
    ensures { OnOk result (plan.new.items
        ≡ plan.old.items ++ spec.define length prototype place name.now
        (saved.moved_prop walked.now.things.keys prop.now)) }
{
    if length && name.spells(b"length") {
        return Ok(());
    }
    let moved = moved_prop(walked, prop)?;
    if prototype && name.spells(b"prototype") {
        plan.push(Rebuild::DefinePrototype {
            at: place,
            value: moved.value,
            writable: moved.writable,
        })?;
        return Ok(());
    }
    plan.push(Rebuild::Define {
        at: place,
        name: name.clone()?,
        prop: moved,
    })?;
    Ok(())
}

// An array's length.
fn push_length(
    state: &State,
    walked: &Walked,
    at: ObjId,
    place: ObjId,
    plan: &mut Vec<Rebuild>,
) -> Result<(), OutOfMemory>
    ensures { OnOk result (plan.new.items ≡ plan.old.items ++ spec.define_length
        (saved.maker_at state.now walked.now.things.keys at.0) place
        (own_property (saved.props_at state.now walked.now.things.keys at.0) length_name)) }
{
    if !state.class(at).is_list() {
        return Ok(());
    }
    let name = ascii_text(state.alloc(), b"length")?;
    push_own_length(walked, place, state.own(at, &name), plan)?;
    Ok(())
}

// The length that an array may have.
fn push_own_length(
    walked: &Walked,
    place: ObjId,
    own: Option<&Prop>,
    plan: &mut Vec<Rebuild>,
) -> Result<(), OutOfMemory>
    ensures { OnOk result (plan.new.items ≡ plan.old.items ++ spec.define_length Array place
        (option_map (saved.moved_prop walked.now.things.keys) (option_copied own.entry))) }
{
    let Some(prop) = own else {
        return Ok(());
    };
    plan.push(Rebuild::DefineLength {
        at: place,
        value: moved_value(walked, &prop.value)?,
        writable: prop.writable,
    })?;
    Ok(())
}

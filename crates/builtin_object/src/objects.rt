//! `Object` and what it has (ECMA-262 5.1 sections 15.2.1 to 15.2.3).

ghost use Rattle.std.specs.Prelude.{◌≡◌, ◌&&◌, not, IfOk};
ghost use Rattle.std.specs.List.{list_all};
ghost use Rattle.std.specs.Map.{keys_of};
ghost use Rattle.js_values.specs.declared.value.Value.TheVariants.{Bool as Truth, Object, Text as Words};
ghost use Rattle.object_heap.specs.Property.{own_property};
ghost use Rattle.page_meaning.specs.Act.{asking};
ghost use Rattle.page_meaning.specs.Descriptors.{new_descriptor as new_descriptor_of};
ghost use Rattle.page_meaning.specs.ObjectRows as spec;
ghost use Rattle.page_meaning.specs.ObjectRows.{on_object};
ghost use Rattle.page_state.specs.Does.{Gives, itself, no_value};
ghost use Rattle.new_lists.specs.Lists.{for_object};
ghost use Rattle.builtin_object.specs.Own.{is_fast};

use crate::definitions::{define_by, define_in};
use crate::descriptors::new_descriptor;
use crate::own::{all_changes, are_fast, enumerable_names};
use js_core::{OutOfMemory, Units};
use js_values::{ObjId, Throw, Value};
use new_lists::new_texts;
use object_heap::{Change, Prop};
use page_state::{Fault, State};

/// `Object(..)` and `new Object(..)` (sections 15.2.1.1 and 15.2.2.1).
pub fn object_from(state: &mut State, value: &Value) -> Result<ObjId, Fault>
    ensures { Gives Object (λ _. spec.object_from value.now) state.old state.new result }
{
    match value {
        Value::Object(at) => Ok(*at),
        Value::Undefined | Value::Null => Ok(state.new_plain()?),
        _ => Err(state.raise(Throw::WrongArgument)),
    }
}

fn prototype_value(state: &State, at: ObjId) -> Value
    ensures { result ≡ spec.value_of_prototype (spec.heap_object state.now at).proto }
{
    match state.proto(at) {
        None => Value::Null,
        Some(proto) => Value::Object(proto),
    }
}

/// `Object.getPrototypeOf` (section 15.2.3.2).
pub fn get_prototype_of(state: &mut State, value: &Value) -> Result<Value, Fault>
    ensures { Gives itself (λ _. on_object value.now spec.get_prototype) state.old state.new
        result }
{
    match value {
        Value::Object(at) => Ok(prototype_value(state, *at)),
        _ => Err(state.raise(Throw::WrongArgument)),
    }
}

fn descriptor_value(state: &mut State, prop: &Prop) -> Result<Value, Fault>
    ensures { Gives itself (λ _. new_descriptor_of prop.now) state.old state.new result }
{
    Ok(Value::Object(new_descriptor(state, prop)?))
}

// The descriptor of an own property, or undefined.
fn described(state: &mut State, at: ObjId, name: &Units) -> Result<Value, Fault>
    ensures { Gives itself (λ _. asking (λ s. own_property (spec.props_at s at) name.now)
        spec.described) state.old state.new result }
{
    match state.own(at, name) {
        None => Ok(Value::Undefined),
        Some(prop) => {
            let prop = prop.clone()?;
            descriptor_value(state, &prop)
        }
    }
}

fn get_descriptor(state: &mut State, at: ObjId, name: &Value) -> Result<Value, Fault>
    ensures { Gives itself (λ calls. spec.get_descriptor calls name.now at) state.old state.new
        result }
{
    let name = state.to_text(name)?;
    described(state, at, &name)
}

/// `Object.getOwnPropertyDescriptor` (section 15.2.3.3).
pub fn get_own_property_descriptor(
    state: &mut State,
    value: &Value,
    name: &Value,
) -> Result<Value, Fault>
    ensures { Gives itself (λ calls. on_object value.now (spec.get_descriptor calls name.now))
        state.old state.new result }
{
    match value {
        Value::Object(at) => get_descriptor(state, *at, name),
        _ => Err(state.raise(Throw::WrongArgument)),
    }
}

fn own_names(state: &mut State, at: ObjId) -> Result<ObjId, Fault>
    ensures { Gives Object (λ _. spec.own_names at) state.old state.new result }
{
    let names = state.own_keys(at)?;
    new_texts(state, names.as_slice())
}

/// `Object.getOwnPropertyNames`, in the order of creation (section 15.2.3.4).
pub fn get_own_property_names(state: &mut State, value: &Value) -> Result<ObjId, Fault>
    ensures { Gives Object (λ _. on_object value.now spec.own_names) state.old state.new result }
{
    match value {
        Value::Object(at) => own_names(state, *at),
        _ => Err(state.raise(Throw::WrongArgument)),
    }
}

fn own_enumerable_names(state: &mut State, at: ObjId) -> Result<ObjId, Fault>
    ensures { Gives Object (λ _. spec.own_enumerable_names at) state.old state.new result }
{
    let names = enumerable_names(state, at)?;
    new_texts(state, names.as_slice())
}

/// `Object.keys`, in the order of creation (section 15.2.3.14).
pub fn keys(state: &mut State, value: &Value) -> Result<ObjId, Fault>
    ensures { Gives Object (λ _. on_object value.now spec.own_enumerable_names) state.old state.new
        result }
{
    match value {
        Value::Object(at) => own_enumerable_names(state, *at),
        _ => Err(state.raise(Throw::WrongArgument)),
    }
}

fn define_named(
    state: &mut State,
    at: ObjId,
    name: &Value,
    descriptor: &Value,
) -> Result<ObjId, Fault>
    ensures { Gives Object (λ calls. spec.define_property calls name.now descriptor.now at)
        state.old state.new result }
{
    let name = state.to_text(name)?;
    define_by(state, at, &name, descriptor)
}

/// `Object.defineProperty` (section 15.2.3.6).
pub fn define_property(
    state: &mut State,
    value: &Value,
    name: &Value,
    descriptor: &Value,
) -> Result<ObjId, Fault>
    ensures { Gives Object (λ calls. on_object value.now
        (spec.define_property calls name.now descriptor.now)) state.old state.new result }
{
    match value {
        Value::Object(at) => define_named(state, *at, name, descriptor),
        _ => Err(state.raise(Throw::WrongArgument)),
    }
}

// The properties are defined in order.
fn define_each(state: &mut State, at: ObjId, changes: &[(Units, Change)]) -> Result<(), Fault>
    ensures { Gives (for_object at) (λ _. spec.define_each at changes.now) state.old state.new
        result }
{
    for named in changes {
        define_in(state, at, &named.0, &named.1)?;
    }
    Ok(())
}

// All descriptors are read before a property is defined.
fn define_all(state: &mut State, from: ObjId, at: ObjId) -> Result<(), Fault>
    ensures { Gives (for_object at) (λ _. asking (λ s. spec.all_changes s from)
        (spec.define_given at)) state.old state.new result }
{
    match all_changes(state, from)? {
        Ok(changes) => define_each(state, at, changes.as_slice()),
        Err(what) => Err(state.raise(what)),
    }
}

// Defines the properties that a value has as descriptors.
fn define_from(state: &mut State, descriptors: &Value, at: ObjId) -> Result<(), Fault>
    ensures { Gives (for_object at) (λ _. spec.define_properties descriptors.now at) state.old
        state.new result }
{
    match descriptors {
        Value::Object(from) => define_all(state, *from, at),
        Value::Text(text) => define_from_text(state, text, at),
        Value::Num(_) | Value::Bool(_) => Ok(()),
        Value::Undefined | Value::Null => Err(state.raise(Throw::WrongArgument)),
    }
}

// The units of a text are no descriptors.
fn define_from_text(state: &mut State, text: &Units, at: ObjId) -> Result<(), Fault>
    ensures { Gives (for_object at) (λ _. spec.define_properties (Words text.now) at) state.old
        state.new result }
{
    match text.as_slice() {
        [] => Ok(()),
        [_, ..] => Err(state.raise(Throw::WrongArgument)),
    }
}

fn define_properties_in(state: &mut State, at: ObjId, descriptors: &Value) -> Result<ObjId, Fault>
    ensures { Gives Object (λ _. spec.define_properties descriptors.now at) state.old state.new
        result }
{
    define_from(state, descriptors, at)?;
    Ok(at)
}

/// `Object.defineProperties` (section 15.2.3.7).
pub fn define_properties(
    state: &mut State,
    value: &Value,
    descriptors: &Value,
) -> Result<ObjId, Fault>
    ensures { Gives Object (λ _. on_object value.now (spec.define_properties descriptors.now))
        state.old state.new result }
{
    match value {
        Value::Object(at) => define_properties_in(state, *at, descriptors),
        _ => Err(state.raise(Throw::WrongArgument)),
    }
}

// Where something is given, it has descriptors.
fn with_given(state: &mut State, at: ObjId, descriptors: &Value) -> Result<ObjId, Fault>
    ensures { Gives Object (λ _. spec.with_given descriptors.now at) state.old state.new result }
{
    match descriptors {
        Value::Undefined => Ok(at),
        _ => define_properties_in(state, at, descriptors),
    }
}

fn new_with(state: &mut State, proto: Option<ObjId>, descriptors: &Value) -> Result<ObjId, Fault>
    ensures { Gives Object (λ _. spec.new_with proto descriptors.now) state.old state.new result }
{
    let at = state.new_object(proto)?;
    with_given(state, at, descriptors)
}

/// `Object.create` (section 15.2.3.5).
pub fn create(state: &mut State, proto: &Value, descriptors: &Value) -> Result<ObjId, Fault>
    ensures { Gives Object (λ _. spec.create proto.now descriptors.now) state.old state.new result }
{
    match proto {
        Value::Object(at) => new_with(state, Some(*at), descriptors),
        Value::Null => new_with(state, None, descriptors),
        _ => Err(state.raise(Throw::WrongArgument)),
    }
}

// What `seal` asks of a property.
fn sealing() -> Change
    ensures { result ≡ spec.sealing }
{
    Change {
        value: None,
        writable: None,
        enumerable: None,
        configurable: Some(false),
    }
}

// What `freeze` asks of a property.
fn freezing() -> Change
    ensures { result ≡ spec.freezing }
{
    Change {
        value: None,
        writable: Some(false),
        enumerable: None,
        configurable: Some(false),
    }
}

// The same is asked of each of the properties.
fn change_each(state: &mut State, at: ObjId, change: &Change, names: &[Units]) -> Result<(), Fault>
    ensures { Gives no_value (λ _. spec.change_each at change.now names.now) state.old state.new
        result }
{
    for name in names {
        define_in(state, at, name, change)?;
    }
    Ok(())
}

fn change_own(state: &mut State, at: ObjId, change: &Change) -> Result<(), Fault>
    ensures { Gives no_value (λ _. asking (λ s. keys_of (spec.props_at s at))
        (spec.change_each at change.now)) state.old state.new result }
{
    let names = state.own_keys(at)?;
    change_each(state, at, change, names.as_slice())
}

fn change_all(state: &mut State, at: ObjId, change: &Change) -> Result<ObjId, Fault>
    ensures { Gives Object (λ _. spec.change_all change.now at) state.old state.new result }
{
    change_own(state, at, change)?;
    prevent(state, at)
}

fn prevent(state: &mut State, at: ObjId) -> Result<ObjId, Fault>
    ensures { Gives Object (λ _. spec.prevent at) state.old state.new result }
{
    match state.prevent_at(at)? {
        None => Ok(at),
        Some(what) => Err(state.raise(what)),
    }
}

/// `Object.seal` (section 15.2.3.8).
pub fn seal(state: &mut State, value: &Value) -> Result<ObjId, Fault>
    ensures { Gives Object (λ _. on_object value.now (spec.change_all spec.sealing)) state.old
        state.new result }
{
    match value {
        Value::Object(at) => change_all(state, *at, &sealing()),
        _ => Err(state.raise(Throw::WrongArgument)),
    }
}

/// `Object.freeze` (section 15.2.3.9).
pub fn freeze(state: &mut State, value: &Value) -> Result<ObjId, Fault>
    ensures { Gives Object (λ _. on_object value.now (spec.change_all spec.freezing)) state.old
        state.new result }
{
    match value {
        Value::Object(at) => change_all(state, *at, &freezing()),
        _ => Err(state.raise(Throw::WrongArgument)),
    }
}

/// `Object.preventExtensions` (section 15.2.3.10).
pub fn prevent_extensions(state: &mut State, value: &Value) -> Result<ObjId, Fault>
    ensures { Gives Object (λ _. on_object value.now spec.prevent) state.old state.new result }
{
    match value {
        Value::Object(at) => prevent(state, *at),
        _ => Err(state.raise(Throw::WrongArgument)),
    }
}

fn is_closed(state: &State, at: ObjId, frozen: bool) -> Result<bool, OutOfMemory>
    ensures { IfOk result (λ b. b ≡ (not (spec.heap_object state.now at).extensible
        && list_all (λ e. is_fast frozen e.1) (spec.props_at state.now at))) }
{
    if state.is_extensible(at) {
        Ok(false)
    } else {
        are_fast(state, at, frozen)
    }
}

/// `Object.isSealed` (section 15.2.3.11).
pub fn is_sealed(state: &mut State, value: &Value) -> Result<bool, Fault>
    ensures { Gives Truth (λ _. on_object value.now (spec.telling spec.is_sealed)) state.old
        state.new result }
{
    match value {
        Value::Object(at) => Ok(is_closed(state, *at, false)?),
        _ => Err(state.raise(Throw::WrongArgument)),
    }
}

/// `Object.isFrozen` (section 15.2.3.12).
pub fn is_frozen(state: &mut State, value: &Value) -> Result<bool, Fault>
    ensures { Gives Truth (λ _. on_object value.now (spec.telling spec.is_frozen)) state.old
        state.new result }
{
    match value {
        Value::Object(at) => Ok(is_closed(state, *at, true)?),
        _ => Err(state.raise(Throw::WrongArgument)),
    }
}

/// `Object.isExtensible` (section 15.2.3.13).
pub fn is_extensible(state: &mut State, value: &Value) -> Result<bool, Fault>
    ensures { Gives Truth (λ _. on_object value.now (spec.telling (λ o. o.extensible))) state.old
        state.new result }
{
    match value {
        Value::Object(at) => Ok(state.is_extensible(*at)),
        _ => Err(state.raise(Throw::WrongArgument)),
    }
}

//! Property descriptors as objects (ECMA-262 5.1 section 8.10).

ghost use Rattle.std.specs.Prelude.{◌≡◌, IfOk, Ok, codes, refl};
ghost use Rattle.page_host.specs.declared.host_name.HostName.TheVariants.{Value as HasValue};
ghost use Rattle.page_meaning.specs.Reading.{seen_at};
ghost use Rattle.js_values.specs.declared.value.Value.TheVariants.{Object};
ghost use Rattle.page_meaning.specs.Descriptors as spec;
ghost use Rattle.page_meaning.specs.Primitives.{make};
ghost use Rattle.page_state.specs.Does.{Does};

use js_core::{OutOfMemory, Units, ascii_text};
use js_values::{ObjId, Throw, Value};
use object_heap::{Change, Class, Prop, Properties};
use page_host::HostName;
use page_state::{OBJECT_PROTOTYPE, Sight, State};
use std::alloc::Global;
use whole_ops::is_true;

/// A new descriptor of a property (section 8.10.4).
pub fn new_descriptor(state: &mut State, prop: &Prop) -> Result<ObjId, OutOfMemory>
    ensures { IfOk result (λ at. Does (λ _. make (spec.descriptor_object prop.now)
        (spec.descriptor_fit prop.now) refl) state.old at state.new) }
{
    let props = descriptor_props(state.alloc(), prop)?;
    state.make(Class::Plain, Some(OBJECT_PROTOTYPE), props)
}

fn descriptor_props(alloc: Global, prop: &Prop) -> Result<Properties, OutOfMemory>
    ensures { IfOk result (λ props. props ≡ spec.descriptor_props prop.now) }
{
    let mut props = data_props(alloc, prop)?;
    let enumerable = ascii_text(alloc, b"enumerable")?;
    props.push(&enumerable, open_property(Value::Bool(prop.enumerable)))?;
    let configurable = ascii_text(alloc, b"configurable")?;
    props.push(&configurable, open_property(Value::Bool(prop.configurable)))?;
    Ok(props)
}

fn data_props(alloc: Global, prop: &Prop) -> Result<Properties, OutOfMemory>
    ensures { IfOk result (λ props. props ≡ spec.data_props prop.now) }
{
    let mut props = Properties::new(alloc);
    let value = ascii_text(alloc, b"value")?;
    props.push(&value, open_property(prop.value.clone()?))?;
    let writable = ascii_text(alloc, b"writable")?;
    props.push(&writable, open_property(Value::Bool(prop.writable)))?;
    Ok(props)
}

// A property that may be written, listed and configured.
fn open_property(value: Value) -> Prop
    ensures { result ≡ spec.open_property value }
{
    Prop {
        value,
        writable: true,
        enumerable: true,
        configurable: true,
    }
}

/// What a value asks for as a descriptor, or why it is none: it is no object, or asks for an accessor (section 8.10.5); or its `value` is
/// a host name whose text is too long, which is found first.
pub fn change_in(state: &State, value: &Value) -> Result<Result<Change, Throw>, OutOfMemory>
    ensures { IfOk result (λ change. change ≡ spec.change_in state.now value.now) }
{
    match value {
        Value::Object(at) => change_at(state, *at),
        Value::Undefined | Value::Null | Value::Bool(_) | Value::Num(_) | Value::Text(_) => Ok(Err(
            Throw::WrongArgument,
        )),
    }
}

fn change_at(state: &State, at: ObjId) -> Result<Result<Change, Throw>, OutOfMemory>
    ensures { IfOk result (λ change. change ≡ spec.change_in state.now (Object at)) }
{
    match value_field(state, at)? {
        Ok(value) => change_with(state, at, value),
        Err(what) => Ok(Err(what)),
    }
}

// The descriptor with this value.
fn change_with(
    state: &State,
    at: ObjId,
    value: Option<Value>,
) -> Result<Result<Change, Throw>, OutOfMemory>
    ensures { IfOk result (λ change. change ≡ spec.change_with state.now at (Ok value)) }
{
    if has_accessor(state, at)? {
        Ok(Err(Throw::WrongArgument))
    } else {
        Ok(Ok(change_of(state, at, value)?))
    }
}

// The field `value`, which may be a host name.
fn value_field(state: &State, at: ObjId) -> Result<Result<Option<Value>, Throw>, OutOfMemory>
    ensures { IfOk result (λ v. v ≡ spec.value_field state.now at HasValue
        (seen_at state.now at (codes "value") HasValue)) }
{
    let name = ascii_text(state.alloc(), b"value")?;
    match state.sight(at, &name, HostName::Value) {
        Sight::Nothing => Ok(Ok(None)),
        Sight::Held => Ok(Ok(Some(state.get_at(at, &name)?))),
        Sight::Hosted(host) => match state.host_read(host, HostName::Value)? {
            Ok(value) => Ok(Ok(Some(value))),
            Err(what) => Ok(Err(what)),
        },
    }
}

fn has_accessor(state: &State, at: ObjId) -> Result<bool, OutOfMemory>
    ensures { IfOk result (λ b. b ≡ spec.has_accessor state.now at) }
{
    let get = ascii_text(state.alloc(), b"get")?;
    let set = ascii_text(state.alloc(), b"set")?;
    Ok(state.has_property(at, &get) || state.has_property(at, &set))
}

fn change_of(state: &State, at: ObjId, value: Option<Value>) -> Result<Change, OutOfMemory>
    ensures { IfOk result (λ change. change ≡ spec.change_of state.now at value) }
{
    let writable = flag(state, at, b"writable")?;
    let enumerable = flag(state, at, b"enumerable")?;
    let configurable = flag(state, at, b"configurable")?;
    Ok(Change {
        value,
        writable,
        enumerable,
        configurable,
    })
}

fn flag(state: &State, at: ObjId, name: &[u8]) -> Result<Option<bool>, OutOfMemory>
    ensures { IfOk result (λ b. b ≡ spec.flag_of state.now at name.now) }
{
    let name = ascii_text(state.alloc(), name)?;
    match state.get(at, &name) {
        Some(value) => Ok(Some(is_true(value))),
        None => Ok(None),
    }
}

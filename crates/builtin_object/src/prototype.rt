//! What the prototype of all objects has (ECMA-262 5.1 section 15.2.4).

ghost use Rattle.std.specs.Prelude.{◌≡◌, ◌++◌, IfOk, codes, is_some};
ghost use Rattle.js_values.specs.declared.value.Value.TheVariants.{Bool as Truth, Object, Text as Words};
ghost use Rattle.object_heap.specs.Property.{own_property};
ghost use Rattle.page_meaning.specs.Act.{also};
ghost use Rattle.page_meaning.specs.Convert.{text_in, to_text};
ghost use Rattle.page_meaning.specs.ObjectRows as spec;
ghost use Rattle.page_state.specs.Does.{Gives, itself};

use js_core::{OutOfMemory, Units, push_ascii};
use js_values::{ObjId, Throw, Value};
use object_heap::array_index;
use page_state::{Fault, State, class_name, own_of_text};

// What `toString` calls a value.
fn tag(state: &State, value: &Value) -> &'static [u8]
    ensures { result.now ≡ spec.tag_of state.now value.now }
{
    match value {
        Value::Undefined => b"Undefined",
        Value::Null => b"Null",
        Value::Bool(_) => b"Boolean",
        Value::Num(_) => b"Number",
        Value::Text(_) => b"String",
        Value::Object(at) => class_name(state.class(*at)),
    }
}

fn tag_text(state: &State, value: &Value) -> Result<Units, OutOfMemory>
    ensures { IfOk result (λ t. t ≡ codes "[object " ++ spec.tag_of state.now value.now
        ++ codes "]") }
{
    let mut out = Vec::new(state.alloc());
    push_ascii(b"[object ", &mut out)?;
    push_ascii(tag(state, value), &mut out)?;
    push_ascii(b"]", &mut out)?;
    Units::of(state.alloc(), out.as_slice())
}

/// `Object.prototype.toString` (section 15.2.4.2).
pub fn tagged(state: &mut State, value: &Value) -> Result<Units, Fault>
    ensures { Gives Words (λ _. spec.tagged value.now) state.old state.new result }
{
    Ok(tag_text(state, value)?)
}

/// `Object.prototype.valueOf` (section 15.2.4.4).
pub fn value_itself(state: &mut State, value: &Value) -> Result<Value, Fault>
    ensures { Gives itself (λ _. spec.value_itself value.now) state.old state.new result }
{
    match value {
        Value::Undefined | Value::Null => Err(state.raise(Throw::WrongArgument)),
        _ => Ok(value.clone()?),
    }
}

fn is_own(state: &State, at: ObjId, name: &Units) -> bool
    ensures { result ≡ is_some (own_property (spec.props_at state.now at) name.now) }
{
    state.own(at, name).is_some()
}

// Whether a value has the own property.
fn has_own(state: &mut State, value: &Value, name: &Units) -> Result<bool, Fault>
    ensures { Gives Truth (λ _. spec.has_own value.now name.now) state.old state.new result }
{
    match value {
        Value::Object(at) => Ok(is_own(state, *at, name)),
        Value::Text(text) => Ok(own_of_text(state.alloc(), text, name)?.is_some()),
        Value::Undefined | Value::Null => Err(state.raise(Throw::WrongArgument)),
        Value::Bool(_) | Value::Num(_) => Ok(false),
    }
}

/// `Object.prototype.hasOwnProperty` (section 15.2.4.5).
pub fn has_own_property(state: &mut State, this: &Value, name: &Value) -> Result<bool, Fault>
    ensures { Gives Truth (λ calls. also (to_text calls name.now)
        (λ x. spec.has_own this.now (text_in x))) state.old state.new result }
{
    let name = state.to_text(name)?;
    has_own(state, this, &name)
}

// Whether a value has the own property and lists it.
fn lists_own(state: &mut State, value: &Value, name: &Units) -> Result<bool, Fault>
    ensures { Gives Truth (λ _. spec.lists_own value.now name.now) state.old state.new result }
{
    match value {
        Value::Object(at) => Ok(is_listed(state, *at, name)),
        Value::Text(text) => Ok(is_unit_name(text, name)),
        Value::Undefined | Value::Null => Err(state.raise(Throw::WrongArgument)),
        Value::Bool(_) | Value::Num(_) => Ok(false),
    }
}

fn is_listed(state: &State, at: ObjId, name: &Units) -> bool
    ensures { result ≡ spec.is_listed (own_property (spec.props_at state.now at) name.now) }
{
    match state.own(at, name) {
        Some(prop) => prop.enumerable,
        None => false,
    }
}

// Whether the name is that of a unit of the text.
fn is_unit_name(text: &Units, name: &Units) -> bool
    ensures { result ≡ spec.is_unit_name text.now name.now }
{
    match array_index(name) {
        Some(index) => text.as_slice().get(index as usize).is_some(),
        None => false,
    }
}

/// `Object.prototype.propertyIsEnumerable` (section 15.2.4.7).
pub fn property_is_enumerable(state: &mut State, this: &Value, name: &Value) -> Result<bool, Fault>
    ensures { Gives Truth (λ calls. also (to_text calls name.now)
        (λ x. spec.lists_own this.now (text_in x))) state.old state.new result }
{
    let name = state.to_text(name)?;
    lists_own(state, this, &name)
}

/// `Object.prototype.isPrototypeOf` (section 15.2.4.6).
pub fn is_prototype_of(state: &mut State, this: &Value, value: &Value) -> Result<bool, Fault>
    ensures { Gives Truth (λ _. spec.is_prototype_of this.now value.now) state.old state.new
        result }
{
    match value {
        Value::Object(at) => is_prototype_of_object(state, this, *at),
        _ => Ok(false),
    }
}

fn is_prototype_of_object(state: &mut State, this: &Value, at: ObjId) -> Result<bool, Fault>
    ensures { Gives Truth (λ _. spec.is_prototype_of this.now (Object at)) state.old state.new
        result }
{
    match this {
        Value::Object(above) => Ok(state.is_above(*above, at)),
        Value::Undefined | Value::Null => Err(state.raise(Throw::WrongArgument)),
        Value::Bool(_) | Value::Num(_) | Value::Text(_) => Ok(false),
    }
}

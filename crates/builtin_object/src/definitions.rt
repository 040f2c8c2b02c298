//! Definitions of properties by built-in functions (ECMA-262 5.1 sections 8.12.9, 15.4.5.1 and 15.2.3).

ghost use Rattle.std.specs.Prelude.{◌≡◌, Ok};
ghost use Rattle.js_values.specs.declared.value.Value.TheVariants.{Num, Object};
ghost use Rattle.object_heap.specs.Define.{length_name};
ghost use Rattle.page_meaning.specs.Act.{also, asking};
ghost use Rattle.page_meaning.specs.Convert.{number_of as spec_number};
ghost use Rattle.page_meaning.specs.Descriptors as spec;
ghost use Rattle.page_meaning.specs.Errors.{settle};
ghost use Rattle.page_meaning.specs.ObjectRows as rows;
ghost use Rattle.page_state.specs.Does.{Gives, no_value};

use crate::descriptors::change_in;
use js_core::{Units, Whole};
use js_values::{ObjId, Value};
use object_heap::Change;
use page_state::{Fault, State, number_of};

// Defines the property, or throws what is refused.
fn define_or_throw(state: &mut State, at: ObjId, name: &Units, change: &Change) -> Result<(), Fault>
    ensures { Gives no_value (λ _. spec.define_or_throw at name.now change.now) state.old state.new
        result }
{
    match state.define_at(at, name, change)? {
        None => Ok(()),
        Some(what) => Err(state.raise(what)),
    }
}

// The number becomes the value of the property.
fn define_number(
    state: &mut State,
    at: ObjId,
    name: &Units,
    change: &Change,
    number: Whole,
) -> Result<(), Fault>
    ensures { Gives no_value (λ _. spec.define_or_throw at name.now
        (spec.change_to change.now (Num number))) state.old state.new result }
{
    let change = Change {
        value: Some(Value::Num(number)),
        writable: change.writable,
        enumerable: change.enumerable,
        configurable: change.configurable,
    };
    define_or_throw(state, at, name, &change)
}

// The value that is to become an array's length is made a number.
fn define_length_to(
    state: &mut State,
    at: ObjId,
    name: &Units,
    change: &Change,
    value: &Value,
) -> Result<(), Fault>
    ensures { Gives no_value (λ _. also (settle (spec_number value.now))
        (λ n. spec.define_or_throw at name.now (spec.change_to change.now n))) state.old state.new
        result }
{
    match number_of(value) {
        Ok(number) => define_number(state, at, name, change, number),
        Err(what) => Err(state.raise(what)),
    }
}

// Defines the length of an array.
fn define_length(state: &mut State, at: ObjId, name: &Units, change: &Change) -> Result<(), Fault>
    requires { name.now ≡ length_name }
    ensures { Gives no_value (λ _. spec.define_length at change.now change.now.value) state.old
        state.new result }
{
    match &change.value {
        Some(value) => define_length_to(state, at, name, change, value),
        None => define_or_throw(state, at, name, change),
    }
}

/// [[DefineOwnProperty]], which makes the value of an array's length a number first (sections 8.12.9 and 15.4.5.1).
pub fn define_in(state: &mut State, at: ObjId, name: &Units, change: &Change) -> Result<(), Fault>
    ensures { Gives no_value (λ _. spec.define_in at name.now change.now) state.old state.new
        result }
{
    if state.is_length_of(at, name) {
        define_length(state, at, name, change)
    } else {
        define_or_throw(state, at, name, change)
    }
}

// Defines the property, and gives the object.
fn defined(state: &mut State, at: ObjId, name: &Units, change: &Change) -> Result<ObjId, Fault>
    ensures { Gives Object (λ _. rows.define_as at name.now (Ok change.now)) state.old state.new
        result }
{
    define_in(state, at, name, change)?;
    Ok(at)
}

/// Defines the property by a value that is to be a descriptor, and gives the object (section 15.2.3.6 steps 3 to 5).
pub fn define_by(
    state: &mut State,
    at: ObjId,
    name: &Units,
    descriptor: &Value,
) -> Result<ObjId, Fault>
    ensures { Gives Object (λ _. asking (λ s. spec.change_in s descriptor.now)
        (rows.define_as at name.now)) state.old state.new result }
{
    match change_in(state, descriptor)? {
        Ok(change) => defined(state, at, name, &change),
        Err(what) => Err(state.raise(what)),
    }
}

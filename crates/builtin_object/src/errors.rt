//! Errors that a script makes (ECMA-262 5.1 sections 15.11.1 and 15.11.2).

ghost use Rattle.std.specs.Prelude.{◌≡◌, ◌∷◌, [], IfOk, codes, refl};
ghost use Rattle.js_values.specs.declared.value.Value.TheVariants.{Object, Text as Words};
ghost use Rattle.object_heap.specs.Property.{hidden};
ghost use Rattle.page_meaning.specs.Act.{also, bind};
ghost use Rattle.page_meaning.specs.Convert.{text_in, to_text};
ghost use Rattle.page_meaning.specs.Functions.{object_of};
ghost use Rattle.page_meaning.specs.Primitives.{make};
ghost use Rattle.page_meaning.specs.ValueRows as spec;
ghost use Rattle.page_state.specs.Does.{Does, Gives};

use js_core::{OutOfMemory, Units, ascii_text};
use js_values::{ErrorKind, ObjId, Value};
use object_heap::{Class, Prop, Properties};
use page_state::{Fault, State, error_prototype};
use std::alloc::Global;

// A new error without a message of its own.
fn make_silent(state: &mut State, kind: ErrorKind) -> Result<ObjId, OutOfMemory>
    ensures { IfOk result (λ at. Does (λ _. make (spec.silent_error kind)
        (spec.silent_fit kind) refl) state.old at state.new) }
{
    let props = Properties::new(state.alloc());
    state.make(Class::Fault, Some(error_prototype(kind)), props)
}

// A new error that says this.
fn make_saying(state: &mut State, kind: ErrorKind, message: Units) -> Result<ObjId, OutOfMemory>
    ensures { IfOk result (λ at. Does (λ _. make (spec.error_saying kind message)
        (spec.saying_fit kind message) refl) state.old at state.new) }
{
    let props = message_props(state.alloc(), message)?;
    state.make(Class::Fault, Some(error_prototype(kind)), props)
}

fn message_props(alloc: Global, message: Units) -> Result<Properties, OutOfMemory>
    ensures { IfOk result (λ props. props ≡ (codes "message", hidden (Words message)) ∷ []) }
{
    let name = ascii_text(alloc, b"message")?;
    let mut props = Properties::new(alloc);
    props.push(&name, Prop::hidden(Value::Text(message)))?;
    Ok(props)
}

fn silent_error(state: &mut State, kind: ErrorKind) -> Result<ObjId, Fault>
    ensures { Gives Object (λ _. bind (make (spec.silent_error kind) (spec.silent_fit kind) refl)
        object_of) state.old state.new result }
{
    Ok(make_silent(state, kind)?)
}

fn error_saying(state: &mut State, kind: ErrorKind, message: Units) -> Result<ObjId, Fault>
    ensures { Gives Object (λ _. bind (make (spec.error_saying kind message)
        (spec.saying_fit kind message) refl) object_of) state.old state.new result }
{
    Ok(make_saying(state, kind, message)?)
}

// A new error whose message is the text of the value.
fn error_about(state: &mut State, kind: ErrorKind, value: &Value) -> Result<ObjId, Fault>
    ensures { Gives Object (λ calls. also (to_text calls value.now)
        (λ t. bind (make (spec.error_saying kind (text_in t))
        (spec.saying_fit kind (text_in t)) refl)
        object_of)) state.old state.new result }
{
    let message = state.to_text(value)?;
    error_saying(state, kind, message)
}

/// A new error of the kind, with a message of its own where one is given and is not undefined.
pub fn error_from(state: &mut State, kind: ErrorKind, value: &Value) -> Result<ObjId, Fault>
    ensures { Gives Object (λ calls. spec.error_from calls kind value.now) state.old state.new
        result }
{
    match value {
        Value::Undefined => silent_error(state, kind),
        _ => error_about(state, kind, value),
    }
}

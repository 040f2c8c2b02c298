//! Which built-in function does what. What is not built yet is not there to be called.

ghost use Rattle.std.specs.Prelude.{◌≡◌};
ghost use Rattle.js_values.specs.declared.value.Value.TheVariants.{Bool as Truth, Object, Text as Words};
ghost use Rattle.page_meaning.specs.Act.{Act, Calls};
ghost use Rattle.page_meaning.specs.ObjectRows.{argument as spec_argument};
ghost use Rattle.page_meaning.specs.Rows.{object_row};
ghost use Rattle.page_meaning.specs.Store.{Store};
ghost use Rattle.page_state.specs.Does.{Gives, itself};

use crate::errors::error_from;
use crate::lines::{alert, log};
use crate::values::{is_array, truth_from, truth_itself, truth_text};
use crate::{objects, prototype};
use js_core::Units;
use js_values::{BuiltIn, ErrorKind, ObjId, Throw, Value};
use new_lists::list_from;
use page_state::{Fault, State, argument};

/// What a built-in function does when it is called or constructed with `this` and the arguments: its value, or what it throws.
pub fn row(
    state: &mut State,
    construct: bool,
    which: BuiltIn,
    this: &Value,
    args: &[Value],
) -> Result<Value, Fault>
    ensures { Gives itself (λ calls. object_row calls construct which this.now args.now) state.old
        state.new result }
{
    let first = argument(args, 0)?;
    let second = argument(args, 1)?;
    let third = argument(args, 2)?;
    row_on(state, construct, which, this, args, &first, &second, &third)
}

// The arguments stand before what they are, of which there may be fewer.
fn row_on(
    state: &mut State,
    construct: bool,
    which: BuiltIn,
    this: &Value,
    args: &[Value],
    first: &Value,
    second: &Value,
    third: &Value,
) -> Result<Value, Fault>
    requires first { first.now ≡ spec_argument args.now 0 }
    requires second { second.now ≡ spec_argument args.now 1 }
    requires third { third.now ≡ spec_argument args.now 2 }
    ensures { Gives itself (λ calls. object_row calls construct which this.now args.now) state.old
        state.new result }
{
    match which {
        BuiltIn::Alert => alert(state, first),
        BuiltIn::ConsoleLog => log(state, args),
        BuiltIn::Object => as_object(objects::object_from(state, first)),
        BuiltIn::ObjectGetPrototypeOf => objects::get_prototype_of(state, first),
        BuiltIn::ObjectGetOwnPropertyDescriptor => objects::get_own_property_descriptor(
            state, first, second,
        ),
        BuiltIn::ObjectGetOwnPropertyNames => as_object(objects::get_own_property_names(
            state, first,
        )),
        BuiltIn::ObjectCreate => as_object(objects::create(state, first, second)),
        BuiltIn::ObjectDefineProperty => as_object(objects::define_property(
            state, first, second, third,
        )),
        BuiltIn::ObjectDefineProperties => as_object(objects::define_properties(
            state, first, second,
        )),
        BuiltIn::ObjectSeal => as_object(objects::seal(state, first)),
        BuiltIn::ObjectFreeze => as_object(objects::freeze(state, first)),
        BuiltIn::ObjectPreventExtensions => as_object(objects::prevent_extensions(state, first)),
        BuiltIn::ObjectIsSealed => as_truth(objects::is_sealed(state, first)),
        BuiltIn::ObjectIsFrozen => as_truth(objects::is_frozen(state, first)),
        BuiltIn::ObjectIsExtensible => as_truth(objects::is_extensible(state, first)),
        BuiltIn::ObjectKeys => as_object(objects::keys(state, first)),
        BuiltIn::ObjectPrototypeToString => as_text(prototype::tagged(state, this)),
        BuiltIn::ObjectPrototypeValueOf => prototype::value_itself(state, this),
        BuiltIn::ObjectPrototypeHasOwnProperty => as_truth(prototype::has_own_property(
            state, this, first,
        )),
        BuiltIn::ObjectPrototypeIsPrototypeOf => as_truth(prototype::is_prototype_of(
            state, this, first,
        )),
        BuiltIn::ObjectPrototypePropertyIsEnumerable => as_truth(prototype::property_is_enumerable(
            state, this, first,
        )),
        BuiltIn::FunctionPrototype => Ok(Value::Undefined),
        BuiltIn::Array => as_object(list_from(state, args)),
        BuiltIn::ArrayIsArray => Ok(Value::Bool(is_array(state, first))),
        BuiltIn::Boolean => as_truth(truth_from(state, construct, first)),
        BuiltIn::BooleanPrototypeToString => truth_text(state, this),
        BuiltIn::BooleanPrototypeValueOf => truth_itself(state, this),
        BuiltIn::Error => as_object(error_from(state, ErrorKind::Plain, first)),
        BuiltIn::TypeError => as_object(error_from(state, ErrorKind::Type, first)),
        BuiltIn::RangeError => as_object(error_from(state, ErrorKind::Range, first)),
        BuiltIn::ReferenceError => as_object(error_from(state, ErrorKind::Reference, first)),
        _ => Err(state.raise(Throw::WrongArgument)),
    }
}

fn as_object(answer: Result<ObjId, Fault>) -> Result<Value, Fault>
    ensures { (act : Calls → Act) (s t : Store) → Gives Object act s t answer
        → Gives itself act s t result }
{
    match answer {
        Ok(given) => Ok(Value::Object(given)),
        Err(fault) => Err(fault),
    }
}

fn as_truth(answer: Result<bool, Fault>) -> Result<Value, Fault>
    ensures { (act : Calls → Act) (s t : Store) → Gives Truth act s t answer
        → Gives itself act s t result }
{
    match answer {
        Ok(given) => Ok(Value::Bool(given)),
        Err(fault) => Err(fault),
    }
}

fn as_text(answer: Result<Units, Fault>) -> Result<Value, Fault>
    ensures { (act : Calls → Act) (s t : Store) → Gives Words act s t answer
        → Gives itself act s t result }
{
    match answer {
        Ok(given) => Ok(Value::Text(given)),
        Err(fault) => Err(fault),
    }
}

//! Functions as objects (ECMA-262 5.1 sections 13.2 and 15.3.5).

ghost use Rattle.std.specs.Prelude.{◌≡◌, ◌≤◌, ◌++◌, ◌∷◌, [], IfOk, OnErr, OnOk};
ghost use Rattle.js_values.specs.declared.value.Value.TheVariants as value;
ghost use Rattle.object_heap.specs.Define.{length_name, number};
ghost use Rattle.object_heap.specs.Function.{constructor_name, prototype_name};
ghost use Rattle.object_heap.specs.Index.{index_end};
ghost use Rattle.object_heap.specs.Property.{fixed, hidden, lasting};

use crate::array::{length_name, number};
use crate::object::Object;
use crate::properties::Properties;
use crate::property::Prop;
use js_core::{OutOfMemory, Units, ascii_text};
use js_values::{ObjId, Value};
use std::alloc::Global;

/// The properties of a function that has these formals and this `prototype`.
pub(crate) fn function_props(
    alloc: Global,
    formals: u64,
    prototype: ObjId,
) -> Result<Properties, OutOfMemory>
    requires { formals ≤ index_end }
    ensures { IfOk result (λ props. props ≡ (length_name, fixed (number formals))
        ∷ (prototype_name, lasting (value.Object prototype)) ∷ []) }
{
    let length = length_name(alloc)?;
    let name = prototype_name(alloc)?;
    let mut props = Properties::new(alloc);
    props.push(&length, Prop::fixed(number(formals)))?;
    props.push(&name, Prop::lasting(Value::Object(prototype)))?;
    Ok(props)
}

/// The properties of the `prototype` of this function.
pub(crate) fn prototype_props(alloc: Global, function: ObjId) -> Result<Properties, OutOfMemory>
    ensures { IfOk result (λ props. props ≡ (constructor_name, hidden (value.Object function))
        ∷ []) }
{
    let name = constructor_name(alloc)?;
    let mut props = Properties::new(alloc);
    props.push(&name, Prop::hidden(Value::Object(function)))?;
    Ok(props)
}

fn prototype_name(alloc: Global) -> Result<Units, OutOfMemory>
    ensures { IfOk result (λ name. name ≡ prototype_name) }
{
    ascii_text(alloc, b"prototype")
}

fn constructor_name(alloc: Global) -> Result<Units, OutOfMemory>
    ensures { IfOk result (λ name. name ≡ constructor_name) }
{
    ascii_text(alloc, b"constructor")
}

/// Both objects are the youngest. After an error nothing has changed.
pub(crate) fn push_both(
    objects: &mut Vec<Object>,
    one: Object,
    two: Object,
) -> Result<(), OutOfMemory>
    ensures ok { OnOk result (objects.new.items ≡ (objects.old.items ++ one ∷ []) ++ two ∷ []) }
    ensures err { OnErr result (objects.new.items ≡ objects.old.items) }
{
    objects.reserve(2)?;
    objects.push(one)?;
    objects.push(two)?;
    Ok(())
}

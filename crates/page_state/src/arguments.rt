//! The arguments of a call.

ghost use Rattle.std.specs.Prelude.{◌≡◌, IfOk, drop};
ghost use Rattle.page_meaning.specs.ObjectRows as spec;

use js_core::OutOfMemory;
use js_values::Value;
use object_heap::Values;
use std::alloc::Global;

/// The argument at the place, or undefined past the last.
pub fn argument(values: &[Value], place: usize) -> Result<Value, OutOfMemory>
    ensures { IfOk result (λ v. v ≡ spec.argument values.now place) }
{
    match values.get(place) {
        Some(value) => value.clone(),
        None => Ok(Value::Undefined),
    }
}

/// The arguments from the place on.
pub fn arguments_from(values: &[Value], place: usize) -> &[Value]
    ensures { result.now ≡ drop place values.now }
{
    if place < values.len() {
        &values[place..]
    } else {
        &[]
    }
}

/// The same values as a list of its own. Strings share their units.
pub fn values_of(alloc: Global, values: &[Value]) -> Result<Values, OutOfMemory>
    ensures { IfOk result (λ copied. copied ≡ values.now) }
{
    let mut items = Vec::new(alloc);
    for value in values {
        items.push(value.clone()?)?;
    }
    Ok(Values::of(items))
}

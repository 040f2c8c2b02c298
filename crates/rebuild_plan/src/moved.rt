//! Places in place of ids.

ghost use Rattle.std.specs.Prelude.{◌≡◌, IfOk};
ghost use Rattle.rebuild_plan.specs.Compact as spec;

use heap_walker::{FIRST_THING, Needs, Walked};
use js_core::OutOfMemory;
use js_values::{ObjId, Value};
use object_heap::{Prop, Values};
use std::alloc::Global;

/// The place of an object among the built-in objects, the document's and the things that were walked.
#[tactic(auto, unfolding(page_meaning::specs::Places::built_in_count))]
pub fn moved(walked: &Walked, at: ObjId) -> ObjId
    ensures { result ≡ spec.moved walked.now.things.keys at }
{
    let _count = walked.things.len();
    match walked.things.get_index_of(&at.0) {
        Some(number) => ObjId(FIRST_THING + number as u64),
        None => at,
    }
}

/// A value with a place for an id.
pub fn moved_value(walked: &Walked, value: &Value) -> Result<Value, OutOfMemory>
    ensures { IfOk result (λ v. v ≡ spec.moved_value walked.now.things.keys value.now) }
{
    match value {
        Value::Object(at) => Ok(Value::Object(moved(walked, *at))),
        Value::Undefined | Value::Null | Value::Bool(_) | Value::Num(_) | Value::Text(_) => {
            value.clone()
        }
    }
}

/// The prototype that an object may have.
pub fn moved_proto(walked: &Walked, proto: Option<ObjId>) -> Option<ObjId>
    ensures { result ≡ spec.moved_proto walked.now.things.keys proto }
{
    match proto {
        Some(at) => Some(moved(walked, at)),
        None => None,
    }
}

/// A property.
pub fn moved_prop(walked: &Walked, prop: &Prop) -> Result<Prop, OutOfMemory>
    ensures { IfOk result (λ p. p ≡ spec.moved_prop walked.now.things.keys prop.now) }
{
    Ok(Prop {
        value: moved_value(walked, &prop.value)?,
        writable: prop.writable,
        enumerable: prop.enumerable,
        configurable: prop.configurable,
    })
}

/// Values.
pub fn moved_values(alloc: Global, walked: &Walked, values: &[Value]) -> Result<Values, OutOfMemory>
    ensures { IfOk result (λ vs. vs ≡ spec.moved_values walked.now.things.keys values.now) }
{
    let mut all = Values::new(alloc);
    let mut rest = values;
    while let [value, after @ ..] = rest {
        all.push(moved_value(walked, value)?)?;
        rest = after;
    }
    Ok(all)
}

/// Names with values.
pub fn moved_needs(alloc: Global, walked: &Walked, needs: &Needs) -> Result<Needs, OutOfMemory>
    ensures { IfOk result (λ ns. ns ≡ spec.moved_needs walked.now.things.keys needs.now) }
{
    let mut all = Needs::new(alloc);
    let mut rest = needs.as_slice();
    while let [need, after @ ..] = rest {
        all.push(need.0.clone()?, moved_value(walked, &need.1)?)?;
        rest = after;
    }
    Ok(all)
}

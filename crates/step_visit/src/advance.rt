//! A visit goes on to its next element.

ghost use Rattle.std.specs.Prelude.{◌≡◌, ◌≢◌, IfOk};
ghost use Rattle.page_meaning.specs.VisitRows as spec;
ghost use Rattle.page_frames.specs.RestVisits.{visits_from};
ghost use Rattle.step_visit.specs.Advancing.{CallsFor, Climbs};

use crate::finding::next_element;
use crate::stopping::stop;
use js_core::OutOfMemory;
use js_values::{ObjId, Value};
use object_heap::Values;
use page_frames::{
    Begin, BoxedCall, BoxedFrame, CallFrame, Frame, Meter, Next, VisitFrame, Visited,
};
use page_meaning::{Signal, Visit};
use page_state::{State, index_value};
use std::alloc::Global;

/// A visit goes on from an index: its function is called for the next element, one level of depth down, or the visit ends past the last.
pub(crate) fn advance(
    state: &State,
    visited: Visited,
    visit: Visit,
    start: u64,
    meter: &mut Meter,
) -> Result<Next, OutOfMemory>
    requires { meter.old.depth ≢ 0 }
    ensures { IfOk result (λ n.
        Climbs (λ calls. visits_from calls visited visit start) state.now meter.old n state.now
        meter.new) }
{
    let mut steps = meter.steps;
    let found = next_element(state, &mut steps, visited.list, start, visited.length);
    meter.steps = steps;
    match found {
        Ok(Some((index, element))) => call_for(
            state.alloc(),
            visited,
            visit,
            index,
            element,
            meter,
        ),
        Ok(None) => Ok(Next::Give(Signal::Value(past_last(visit)))),
        Err(halt) => stop(halt),
    }
}

// The function is called for an element, one level of depth down, and the visit waits.
fn call_for(
    alloc: Global,
    visited: Visited,
    visit: Visit,
    index: u64,
    element: Value,
    meter: &mut Meter,
) -> Result<Next, OutOfMemory>
    requires { meter.old.depth ≢ 0 }
    ensures { IfOk result (λ n. CallsFor visited visit index element meter.old n meter.new) }
{
    let call = CallFrame {
        construct: false,
        callee: visited.callback.clone()?,
        this: this_of(&visit, &visited.this)?,
        args: arguments_of(alloc, &visit, &element, index, visited.list)?,
    };
    let call = BoxedCall::of(alloc, call)?;
    let frame = VisitFrame {
        visited,
        visit,
        index,
        element,
    };
    let frame = BoxedFrame::of(alloc, Frame::Visit(frame))?;
    meter.depth -= 1;
    Ok(Next::Then(frame, Begin::Call(call)))
}

// What `this` is in a call.
fn this_of(visit: &Visit, this: &Value) -> Result<Value, OutOfMemory>
    ensures { IfOk result (λ v. v ≡ spec.this_of visit.now this.now) }
{
    match visit {
        Visit::Reduce(_) => Ok(Value::Undefined),
        Visit::Every | Visit::Some | Visit::ForEach | Visit::Map(_) | Visit::Filter(_, _) =>
            this.clone(),
    }
}

// The arguments of a call: what was accumulated, the element, its index and the array.
fn arguments_of(
    alloc: Global,
    visit: &Visit,
    element: &Value,
    index: u64,
    list: ObjId,
) -> Result<Values, OutOfMemory>
    ensures { IfOk result (λ vs. vs ≡ spec.arguments_of visit.now element.now index list) }
{
    let mut values = Values::new(alloc);
    match visit {
        Visit::Reduce(total) => values.push(total.clone()?)?,
        Visit::Every | Visit::Some | Visit::ForEach | Visit::Map(_) | Visit::Filter(_, _) => (),
    }
    values.push(element.clone()?)?;
    values.push(index_value(index)?)?;
    values.push(Value::Object(list))?;
    Ok(values)
}

// What a visit gives past the last element.
fn past_last(visit: Visit) -> Value
    ensures { result ≡ spec.past_last visit }
{
    match visit {
        Visit::Every => Value::Bool(true),
        Visit::Some => Value::Bool(false),
        Visit::ForEach => Value::Undefined,
        Visit::Map(made) | Visit::Filter(made, _) => Value::Object(made),
        Visit::Reduce(total) => total,
    }
}

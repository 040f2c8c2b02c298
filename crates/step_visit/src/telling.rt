//! What a visit makes of what its function gives for an element.

ghost use Rattle.std.specs.Prelude.{◌≡◌};
ghost use Rattle.step_visit.specs.Telling.{Filters, Follows, Keeps, Maps, after_every, after_some};

use js_values::{ObjId, Value};
use page_meaning::Visit;
use page_state::{Fault, State, further};
use whole_ops::is_true;

/// How a visit goes on.
#[derive(Drop)]
pub enum Told {
    /// It ends with this value.
    Ends(Value),
    /// The next element is its turn.
    GoesOn(Visit),
}

/// What the function gave for an element ends the visit, or becomes a part of what it makes.
pub fn tell(
    state: &mut State,
    visit: &Visit,
    element: &Value,
    index: u64,
    given: &Value,
) -> Result<Told, Fault>
    ensures { Follows visit.now element.now index given.now state.old state.new result }
{
    match visit {
        Visit::Every => Ok(every(is_true(given))),
        Visit::Some => Ok(some(is_true(given))),
        Visit::ForEach => Ok(Told::GoesOn(Visit::ForEach)),
        Visit::Map(made) => map(state, *made, index, given),
        Visit::Filter(made, count) => filter(state, *made, *count, element, is_true(given)),
        Visit::Reduce(_) => Ok(Told::GoesOn(Visit::Reduce(given.clone()?))),
    }
}

// The first element for which it does not hold ends `every`.
fn every(holds: bool) -> Told
    ensures { result ≡ after_every holds }
{
    if holds {
        Told::GoesOn(Visit::Every)
    } else {
        Told::Ends(Value::Bool(false))
    }
}

// The first element for which it holds ends `some`.
fn some(holds: bool) -> Told
    ensures { result ≡ after_some holds }
{
    if holds {
        Told::Ends(Value::Bool(true))
    } else {
        Told::GoesOn(Visit::Some)
    }
}

// What was given becomes the element of `map`'s array.
fn map(state: &mut State, made: ObjId, index: u64, given: &Value) -> Result<Told, Fault>
    ensures { Maps made index given.now state.old state.new result }
{
    state.define_element(made, index, given.clone()?)?;
    Ok(Told::GoesOn(Visit::Map(made)))
}

// The element is one of those that `filter` keeps, or is not.
fn filter(
    state: &mut State,
    made: ObjId,
    count: u64,
    element: &Value,
    keeps: bool,
) -> Result<Told, Fault>
    ensures { Filters made count element.now keeps state.old state.new result }
{
    if keeps {
        keep(state, made, count, element)
    } else {
        Ok(Told::GoesOn(Visit::Filter(made, count)))
    }
}

fn keep(state: &mut State, made: ObjId, count: u64, element: &Value) -> Result<Told, Fault>
    ensures { Keeps made count element.now state.old state.new result }
{
    let next = further(count, 1)?;
    state.define_element(made, count, element.clone()?)?;
    Ok(Told::GoesOn(Visit::Filter(made, next)))
}

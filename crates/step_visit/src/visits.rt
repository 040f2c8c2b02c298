//! How a visit begins, and how it goes on from what its function gave.

ghost use Rattle.std.specs.Prelude.{◌≡◌, ◌≢◌, ◌<◌, IfOk, suc};
ghost use Rattle.js_values.specs.declared.value.Value.TheVariants.{Undefined};
ghost use Rattle.page_meaning.specs.ObjectRows.{argument as spec_argument};
ghost use Rattle.page_meaning.specs.VisitRows as spec;
ghost use Rattle.page_meaning.specs.declared.visit.Visit.{Visit as Kind};
ghost use Rattle.page_meaning.specs.Act.{Act};
ghost use Rattle.page_meaning.specs.Store.{Store};
ghost use Rattle.page_frames.specs.RestVisits.{rest_visit, visits_from};
ghost use Rattle.page_frames.specs.Step.{Steps};
ghost use Rattle.step_visit.specs.Advancing.{Climbs};
ghost use Rattle.step_visit.specs.Telling.{Comes};

use crate::advance::advance;
use crate::finding::next_element;
use crate::stopping::stop;
use crate::telling::{Told, tell};
use js_core::OutOfMemory;
use js_values::{BuiltIn, ObjId, Throw, Value};
use page_frames::{Frame, Meter, Next, VisitFrame, Visited};
use page_meaning::{Signal, Visit};
use page_state::{Fault, State, argument, further};
use step_parts::give;

/// A built-in function that calls back begins: `this` must be an array, and the first argument a function.
pub fn begin_visit(
    state: &mut State,
    which: BuiltIn,
    this: &Value,
    args: &[Value],
    meter: &mut Meter,
) -> Result<Next, OutOfMemory>
    requires { meter.old.depth ≢ 0 }
    ensures { IfOk result (λ n.
        Climbs (λ calls. spec.visit_row calls which this.now args.now) state.old meter.old n
        state.new meter.new) }
{
    match state.as_list(this) {
        Some(list) => begin_on(state, which, list, args, meter),
        None => {
            let fault = state.raise(Throw::WrongArgument);
            give(Err(fault))
        }
    }
}

// What cannot be called is refused, for an empty array too.
fn begin_on(
    state: &mut State,
    which: BuiltIn,
    list: ObjId,
    args: &[Value],
    meter: &mut Meter,
) -> Result<Next, OutOfMemory>
    requires { meter.old.depth ≢ 0 }
    ensures { IfOk result (λ n.
        Climbs (λ calls. spec.visit_on calls which args.now list) state.old meter.old n state.new
        meter.new) }
{
    let length = state.length_of(list)?;
    let callback = argument(args, 0)?;
    let this = argument(args, 1)?;
    if !state.is_function(&callback) {
        let fault = state.raise(Throw::WrongArgument);
        return give(Err(fault));
    }
    let visited = Visited {
        callback,
        this,
        list,
        length,
    };
    begin_list(state, which, visited, args, meter)
}

// Each begins with what it keeps.
fn begin_list(
    state: &mut State,
    which: BuiltIn,
    visited: Visited,
    args: &[Value],
    meter: &mut Meter,
) -> Result<Next, OutOfMemory>
    requires depth { meter.old.depth ≢ 0 }
    requires callback { visited.callback ≡ spec_argument args.now 0 }
    requires this { visited.this ≡ spec_argument args.now 1 }
    ensures { IfOk result (λ n.
        Climbs (λ calls. spec.visit_list calls which visited.list visited.length args.now)
        state.old meter.old n state.new meter.new) }
{
    match which {
        BuiltIn::ArrayPrototypeEvery => advance(state, visited, Visit::Every, 0, meter),
        BuiltIn::ArrayPrototypeSome => advance(state, visited, Visit::Some, 0, meter),
        BuiltIn::ArrayPrototypeForEach => advance(state, visited, Visit::ForEach, 0, meter),
        BuiltIn::ArrayPrototypeMap => begin_map(state, visited, meter),
        BuiltIn::ArrayPrototypeFilter => begin_filter(state, visited, meter),
        BuiltIn::ArrayPrototypeReduce => begin_reduce(state, visited, args, meter),
        _ => {
            let fault = state.raise(Throw::WrongArgument);
            give(Err(fault))
        }
    }
}

// `map` makes an array of the same length (section 15.4.4.19).
fn begin_map(state: &mut State, visited: Visited, meter: &mut Meter) -> Result<Next, OutOfMemory>
    requires { meter.old.depth ≢ 0 }
    ensures { IfOk result (λ n.
        Climbs (λ calls.
        spec.map_all calls visited.callback visited.this visited.list visited.length) state.old
        meter.old n state.new meter.new) }
{
    let made = state.new_list()?;
    match state.set_length(made, visited.length) {
        Ok(_) => advance(state, visited, Visit::Map(made), 0, meter),
        Err(fault) => give(Err(fault)),
    }
}

// `filter` makes an empty array (section 15.4.4.20).
fn begin_filter(state: &mut State, visited: Visited, meter: &mut Meter) -> Result<Next, OutOfMemory>
    requires { meter.old.depth ≢ 0 }
    ensures { IfOk result (λ n.
        Climbs (λ calls. spec.filter_all calls visited.callback visited.this visited.list
        visited.length) state.old meter.old n state.new meter.new) }
{
    let made = state.new_list()?;
    advance(state, visited, Visit::Filter(made, 0), 0, meter)
}

// `reduce` begins with its second argument, or with the first element (section 15.4.4.21).
fn begin_reduce(
    state: &mut State,
    visited: Visited,
    args: &[Value],
    meter: &mut Meter,
) -> Result<Next, OutOfMemory>
    requires depth { meter.old.depth ≢ 0 }
    requires callback { visited.callback ≡ spec_argument args.now 0 }
    ensures { IfOk result (λ n.
        Climbs (λ calls. spec.reduce calls visited.list visited.length args.now) state.old
        meter.old n state.new meter.new) }
{
    let visited = Visited {
        this: Value::Undefined,
        ..visited
    };
    if args.len() < 2 {
        return reduce_from(state, visited, meter);
    }
    let total = args[1].clone()?;
    advance(state, visited, Visit::Reduce(total), 0, meter)
}

// The first element is accumulated; where there is none, it throws.
fn reduce_from(state: &mut State, visited: Visited, meter: &mut Meter) -> Result<Next, OutOfMemory>
    requires depth { meter.old.depth ≢ 0 }
    requires this { visited.this ≡ Undefined }
    ensures { IfOk result (λ n.
        Climbs (λ calls.
        spec.reduce_from calls visited.callback visited.list 0 visited.length) state.old meter.old
        n state.new meter.new) }
{
    let mut steps = meter.steps;
    let found = next_element(state, &mut steps, visited.list, 0, visited.length);
    meter.steps = steps;
    match found {
        Ok(Some((index, element))) => advance(
            state,
            visited,
            Visit::Reduce(element),
            further(index, 1)?,
            meter,
        ),
        Ok(None) => {
            let fault = state.raise(Throw::WrongArgument);
            give(Err(fault))
        }
        Err(halt) => stop(halt),
    }
}

/// A visit goes on from the end of a call of its function: what that throws ends it (sections 15.4.4.16 to 15.4.4.21).
pub fn go_visit(
    state: &mut State,
    frame: VisitFrame,
    end: Signal,
    meter: &mut Meter,
) -> Result<Next, OutOfMemory>
    requires { meter.old.depth < 4294967295 }
    ensures { IfOk result (λ n.
        Steps (Frame.Visit frame) end state.old meter.old n state.new meter.new) }
{
    meter.depth += 1;
    match end {
        Signal::Value(given) => go_on(state, frame, given, meter),
        other => Ok(Next::Give(other)),
    }
}

// What the function gave is told, and the next element has its turn.
fn go_on(
    state: &mut State,
    frame: VisitFrame,
    given: Value,
    meter: &mut Meter,
) -> Result<Next, OutOfMemory>
    requires { meter.old.depth ≢ 0 }
    ensures { IfOk result (λ n.
        Climbs (λ calls. rest_visit calls frame given) state.old meter.old n state.new meter.new) }
{
    let VisitFrame {
        visited,
        visit,
        index,
        element,
    } = frame;
    let told = tell(state, &visit, &element, index, &given);
    go_told(state, visited, index, told, meter)
}

// The visit ends, or goes on from the next index.
fn go_told(
    state: &State,
    visited: Visited,
    index: u64,
    told: Result<Told, Fault>,
    meter: &mut Meter,
) -> Result<Next, OutOfMemory>
    requires { meter.old.depth ≢ 0 }
    ensures { (act : (Kind → Act) → Act) (s : Store) → Comes act s state.now told →
        IfOk result (λ n.
        Climbs (λ calls. act (λ kind. visits_from calls visited kind (suc index))) s meter.old n
        state.now meter.new) }
{
    match told {
        Ok(Told::Ends(value)) => give(Ok(value)),
        Ok(Told::GoesOn(visit)) => {
            let next = further(index, 1)?;
            advance(state, visited, visit, next, meter)
        }
        Err(fault) => give(Err(fault)),
    }
}

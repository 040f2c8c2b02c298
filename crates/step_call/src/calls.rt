//! How a call or a construction begins: the step and the level of depth that it takes (ECMA-262 5.1 sections 11.2.2 and 11.2.3).

ghost use Rattle.std.specs.Prelude.{◌≡◌, ◌≢◌, IfOk, Some};
ghost use Rattle.js_values.specs.declared.value.Value.TheVariants.{Object};
ghost use Rattle.page_meaning.specs.Act.{bind};
ghost use Rattle.page_meaning.specs.Calls.{called, constructed, constructs as spec_constructs, is_constructor as spec_constructor};
ghost use Rattle.page_meaning.specs.Primitives.{take_step as spec_step};
ghost use Rattle.page_meaning.specs.Properties.{class_at, class_of};
ghost use Rattle.page_frames.specs.Step.{Begins, Leads};
ghost use Rattle.step_call.specs.Callees.{Descends, may_run as spec_may, runs, runs_at};

use crate::bodies::{call_page, construct_page, run_bound};
use crate::natives::run_native;
use js_core::OutOfMemory;
use js_values::{BuiltIn, ObjId, Throw, Value};
use object_heap::{Class, Values};
use page_frames::{Begin, CallFrame, Meter, Next};
use page_state::State;
use step_parts::{give, take_step};

/// A call or a construction begins. What is no function, or no constructor, throws without a step (sections 11.2.2 and 11.2.3).
pub fn begin_call(
    state: &mut State,
    call: CallFrame,
    meter: &mut Meter,
) -> Result<Next, OutOfMemory>
    ensures { IfOk result (λ n.
        Begins (Begin.Call call) state.old meter.old n state.new meter.new) }
{
    if may_run(state, call.construct, &call.callee) {
        step_into(state, call, meter)
    } else {
        let fault = state.raise(Throw::NotFunction);
        give(Err(fault))
    }
}

// Takes a step, where one is left, and then a level of depth, where one is left.
fn step_into(state: &mut State, call: CallFrame, meter: &mut Meter) -> Result<Next, OutOfMemory>
    ensures { IfOk result (λ n.
        Leads (bind spec_step (λ _.
        runs_at meter.old.depth call.construct call.callee call.this call.args
        (class_of state.old call.callee)))
        0 state.old meter.old n state.new meter.new) }
{
    if meter.steps == 0 {
        return Ok(Next::Stopped);
    }
    take_step(meter);
    if meter.depth == 0 {
        let fault = state.raise(Throw::TooDeep);
        return give(Err(fault));
    }
    run_callee(state, call, meter)
}

fn run_callee(state: &mut State, call: CallFrame, meter: &mut Meter) -> Result<Next, OutOfMemory>
    requires { meter.old.depth ≢ 0 }
    ensures { IfOk result (λ n.
        Descends (λ calls.
        runs calls call.construct call.callee call.this call.args (class_of state.old call.callee))
        state.old meter.old n state.new meter.new) }
{
    match call.callee {
        Value::Object(at) => run_object(state, at, call, meter),
        _ => {
            let fault = state.raise(Throw::NotFunction);
            give(Err(fault))
        }
    }
}

fn run_object(
    state: &mut State,
    at: ObjId,
    call: CallFrame,
    meter: &mut Meter,
) -> Result<Next, OutOfMemory>
    requires { meter.old.depth ≢ 0 }
    ensures { IfOk result (λ n.
        Descends (λ calls.
        runs calls call.construct (Object at) call.this call.args (Some (class_at state.old at)))
        state.old meter.old n state.new meter.new) }
{
    if call.construct {
        construct_object(state, at, call.args, meter)
    } else {
        call_object(state, at, call.this, call.args, meter)
    }
}

// A call, by the class of what is called.
fn call_object(
    state: &mut State,
    at: ObjId,
    this: Value,
    args: Values,
    meter: &mut Meter,
) -> Result<Next, OutOfMemory>
    requires { meter.old.depth ≢ 0 }
    ensures { IfOk result (λ n.
        Descends (λ calls.
        called calls this args (Some (class_at state.old at))) state.old meter.old n state.new
        meter.new) }
{
    match state.class(at) {
        Class::Page { code, env } => {
            let code = code.clone()?;
            let env = *env;
            call_page(state, code, env, this, &args, meter)
        }
        Class::Native(which) => {
            let which = *which;
            run_native(state, false, which, &this, &args, meter)
        }
        Class::Bound {
            target,
            this: own,
            args: before,
        } => {
            let target = *target;
            let own = own.clone()?;
            let before = before.clone()?;
            run_bound(state.alloc(), false, target, own, before, args, meter)
        }
        _ => {
            let fault = state.raise(Throw::NotFunction);
            give(Err(fault))
        }
    }
}

// A construction, by the class of what is constructed.
fn construct_object(
    state: &mut State,
    at: ObjId,
    args: Values,
    meter: &mut Meter,
) -> Result<Next, OutOfMemory>
    requires { meter.old.depth ≢ 0 }
    ensures { IfOk result (λ n.
        Descends (λ calls.
        constructed calls (Object at) args (Some (class_at state.old at))) state.old meter.old n
        state.new meter.new) }
{
    match state.class(at) {
        Class::Page { code, env } => {
            let code = code.clone()?;
            let env = *env;
            construct_page(state, at, code, env, &args, meter)
        }
        Class::Native(which) => {
            let which = *which;
            run_native(state, true, which, &Value::Undefined, &args, meter)
        }
        Class::Bound {
            target,
            this: own,
            args: before,
        } => {
            let target = *target;
            let own = own.clone()?;
            let before = before.clone()?;
            run_bound(state.alloc(), true, target, own, before, args, meter)
        }
        _ => {
            let fault = state.raise(Throw::NotFunction);
            give(Err(fault))
        }
    }
}

// Whether a value may be called, or constructed.
fn may_run(state: &State, construct: bool, callee: &Value) -> bool
    ensures { result ≡ spec_may construct (class_of state.now callee.now) }
{
    if !construct {
        return state.is_function(callee);
    }
    match callee {
        Value::Object(at) => is_constructor(state.class(*at)),
        _ => false,
    }
}

fn is_constructor(class: &Class) -> bool
    ensures { result ≡ spec_constructor (Some class.now) }
{
    match class {
        Class::Page { .. } | Class::Bound { .. } => true,
        Class::Native(which) => constructs(*which),
        _ => false,
    }
}

// The built-in functions that the standard constructs.
fn constructs(which: BuiltIn) -> bool
    ensures { result ≡ spec_constructs which }
{
    match which {
        BuiltIn::Object | BuiltIn::Function | BuiltIn::Array | BuiltIn::String => true,
        BuiltIn::Number | BuiltIn::Boolean | BuiltIn::Error => true,
        BuiltIn::TypeError | BuiltIn::RangeError | BuiltIn::ReferenceError => true,
        _ => false,
    }
}

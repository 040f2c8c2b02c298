//! What runs of a function that is called or constructed, by its class (ECMA-262 5.1 sections 13.2.1, 13.2.2 and 15.3.4.5).

ghost use Rattle.std.specs.Prelude.{◌≡◌, ◌≢◌, ◌++◌, IfOk};
ghost use Rattle.js_values.specs.declared.value.Value.TheVariants.{Object};
ghost use Rattle.page_meaning.specs.Act.{bind, ret};
ghost use Rattle.page_meaning.specs.Calls.{build};
ghost use Rattle.page_meaning.specs.Functions.{enter};
ghost use Rattle.page_meaning.specs.Statements.{exec_all};
ghost use Rattle.page_meaning.specs.Store.{Store};
ghost use Rattle.page_frames.specs.RestCalls.{mean_call, with_fresh};
ghost use Rattle.step_call.specs.Callees.{Descends};

use code_table::FunctionCode;
use js_core::OutOfMemory;
use js_values::{EnvId, ObjId, Value};
use object_heap::Values;
use page_frames::{Begin, BoxedCall, BoxedFrame, CallFrame, CalledFrame, Frame, Meter, Next, Spot};
use page_state::State;
use std::alloc::Global;

// The body of a function runs on `this` in a new environment, one level of depth down. A construction keeps its fresh object.
fn enter_body(
    state: &mut State,
    code: FunctionCode,
    env: Option<EnvId>,
    this: Value,
    args: &Values,
    fresh: Option<Value>,
    meter: &mut Meter,
) -> Result<Next, OutOfMemory>
    requires { meter.old.depth ≢ 0 }
    ensures { IfOk result (λ n.
        Descends (λ calls. bind (enter (exec_all calls) code env this args.now) (λ s.
        ret (with_fresh fresh s))) state.old meter.old n state.new meter.new) }
{
    let scope = state.enter(&code, env, args.as_slice())?;
    let body = Spot::body(state.alloc(), code, Some(scope), this)?;
    body.is_small();
    meter.depth -= 1;
    let frame = Frame::Called(CalledFrame { body: true, fresh });
    let boxed = BoxedFrame::of(state.alloc(), frame)?;
    Ok(Next::Then(boxed, Begin::Node(body)))
}

/// A function of a page is called (section 13.2.1).
pub(crate) fn call_page(
    state: &mut State,
    code: FunctionCode,
    env: Option<EnvId>,
    this: Value,
    args: &Values,
    meter: &mut Meter,
) -> Result<Next, OutOfMemory>
    requires { meter.old.depth ≢ 0 }
    ensures { IfOk result (λ n.
        Descends (λ calls. enter (exec_all calls) code env this args.now) state.old meter.old n
        state.new meter.new) }
{
    enter_body(state, code, env, this, args, None, meter)
}

/// A function of a page is constructed: its body runs on a fresh object (section 13.2.2).
pub(crate) fn construct_page(
    state: &mut State,
    at: ObjId,
    code: FunctionCode,
    env: Option<EnvId>,
    args: &Values,
    meter: &mut Meter,
) -> Result<Next, OutOfMemory>
    requires { meter.old.depth ≢ 0 }
    ensures { IfOk result (λ n.
        Descends (λ calls.
        build calls (Object at) code env args.now) state.old meter.old n state.new meter.new) }
{
    let made = state.new_instance(at)?;
    let fresh = Some(Value::Object(made));
    enter_body(state, code, env, Value::Object(made), args, fresh, meter)
}

/// A bound function calls or constructs its target, one level of depth down, with its own arguments before those that it got (sections
/// 15.3.4.5.1 and 15.3.4.5.2).
pub(crate) fn run_bound(
    alloc: Global,
    construct: bool,
    target: ObjId,
    this: Value,
    own: Values,
    args: Values,
    meter: &mut Meter,
) -> Result<Next, OutOfMemory>
    requires { meter.old.depth ≢ 0 }
    ensures { (w : Store) →
        IfOk result (λ n.
        Descends (λ calls. mean_call calls construct (Object target) this (own ++ args)) w meter.old
        n w meter.new) }
{
    let args = joined(own, args)?;
    let call = CallFrame {
        construct,
        callee: Value::Object(target),
        this,
        args,
    };
    run_call(alloc, call, meter)
}

/// Another call runs, one level of depth down, and what it gives is given.
pub(crate) fn run_call(
    alloc: Global,
    call: CallFrame,
    meter: &mut Meter,
) -> Result<Next, OutOfMemory>
    requires { meter.old.depth ≢ 0 }
    ensures { (w : Store) →
        IfOk result (λ n.
        Descends (λ calls. mean_call calls call.construct call.callee call.this call.args) w
        meter.old n w meter.new) }
{
    meter.depth -= 1;
    let frame = Frame::Called(CalledFrame {
        body: false,
        fresh: None,
    });
    let boxed = BoxedFrame::of(alloc, frame)?;
    let call = BoxedCall::of(alloc, call)?;
    Ok(Next::Then(boxed, Begin::Call(call)))
}

fn joined(own: Values, args: Values) -> Result<Values, OutOfMemory>
    ensures { IfOk result (λ values. values ≡ own ++ args) }
{
    let mut values = own.into_vec();
    let mut rest = args.into_vec();
    values.append(&mut rest)?;
    Ok(Values::of(values))
}

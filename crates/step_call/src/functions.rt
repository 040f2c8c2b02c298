//! What the prototype of functions has, and the text of an array, which calls its `join` (ECMA-262 5.1 sections 15.3.4 and 15.4.4.2).

ghost use Rattle.std.specs.Prelude.{◌≡◌, ◌≢◌, ◌∷◌, ◌-◌, [], IfOk, drop, refl};
ghost use Rattle.object_heap.specs.Define.{length_name, number};
ghost use Rattle.object_heap.specs.Property.{fixed};
ghost use Rattle.page_meaning.specs.Elements.{on_list};
ghost use Rattle.page_meaning.specs.FunctionRows as spec;
ghost use Rattle.page_meaning.specs.ObjectRows.{argument as spec_argument};
ghost use Rattle.page_meaning.specs.Primitives.{make};
ghost use Rattle.page_meaning.specs.Rows.{function_row};
ghost use Rattle.page_meaning.specs.Store.{Store};
ghost use Rattle.page_state.specs.Does.{Does, Gives, itself};
ghost use Rattle.page_state.specs.Turns.{Tells};
ghost use Rattle.step_call.specs.Callees.{Descends};

use crate::bodies::run_call;
use js_core::{OutOfMemory, ascii_text};
use js_values::{BuiltIn, ObjId, Throw, Value};
use object_heap::{Class, Prop, Properties, Values};
use page_frames::{CallFrame, Meter, Next};
use page_state::{
    FUNCTION_PROTOTYPE, Fault, Halt, State, argument, arguments_from, function_at, index_value,
    take_turn, values_of,
};
use std::alloc::Global;
use step_parts::give;
use step_visit::stop;

/// `call`, `apply` and `bind`, and the text of an array.
pub(crate) fn run_function(
    state: &mut State,
    which: BuiltIn,
    this: &Value,
    args: &[Value],
    meter: &mut Meter,
) -> Result<Next, OutOfMemory>
    requires { meter.old.depth ≢ 0 }
    ensures { IfOk result (λ n.
        Descends (λ calls. function_row calls which this.now args.now) state.old meter.old n
        state.new meter.new) }
{
    match which {
        BuiltIn::FunctionPrototypeCall => call_with(state.alloc(), this, args, meter),
        BuiltIn::FunctionPrototypeApply => apply(state, this, args, meter),
        BuiltIn::FunctionPrototypeBind => give(bind(state, this, args)),
        BuiltIn::ArrayPrototypeToString => list_text(state, this, meter),
        _ => {
            let fault = state.raise(Throw::WrongArgument);
            give(Err(fault))
        }
    }
}

// `call` (section 15.3.4.4).
fn call_with(
    alloc: Global,
    callee: &Value,
    args: &[Value],
    meter: &mut Meter,
) -> Result<Next, OutOfMemory>
    requires { meter.old.depth ≢ 0 }
    ensures { (w : Store) →
        IfOk result (λ n.
        Descends (λ calls. spec.call_function calls callee.now args.now) w meter.old n w
        meter.new) }
{
    let call = CallFrame {
        construct: false,
        callee: callee.clone()?,
        this: argument(args, 0)?,
        args: values_of(alloc, arguments_from(args, 1))?,
    };
    run_call(alloc, call, meter)
}

// `apply`: what is no function throws before its list is looked at (section 15.3.4.3).
fn apply(
    state: &mut State,
    callee: &Value,
    args: &[Value],
    meter: &mut Meter,
) -> Result<Next, OutOfMemory>
    requires { meter.old.depth ≢ 0 }
    ensures { IfOk result (λ n.
        Descends (λ calls. spec.apply_function calls callee.now args.now) state.old meter.old n
        state.new meter.new) }
{
    let this = argument(args, 0)?;
    let list = argument(args, 1)?;
    if state.is_function(callee) {
        apply_to(state, callee, this, &list, meter)
    } else {
        let fault = state.raise(Throw::NotFunction);
        give(Err(fault))
    }
}

// A call without arguments, or with the elements of an array.
fn apply_to(
    state: &mut State,
    callee: &Value,
    this: Value,
    list: &Value,
    meter: &mut Meter,
) -> Result<Next, OutOfMemory>
    requires { meter.old.depth ≢ 0 }
    ensures { IfOk result (λ n.
        Descends (λ calls. spec.apply_to calls callee.now this list.now) state.old meter.old n
        state.new meter.new) }
{
    match list {
        Value::Undefined => call_without(state.alloc(), callee, this, meter),
        Value::Null => call_without(state.alloc(), callee, this, meter),
        _ => apply_list(state, callee, this, list, meter),
    }
}

// The callee is called without arguments.
fn call_without(
    alloc: Global,
    callee: &Value,
    this: Value,
    meter: &mut Meter,
) -> Result<Next, OutOfMemory>
    requires { meter.old.depth ≢ 0 }
    ensures { (w : Store) →
        IfOk result (λ n.
        Descends (λ calls. calls.call callee.now this []) w meter.old n w meter.new) }
{
    call_on(alloc, callee, this, Values::new(alloc), meter)
}

// The callee is called on this value.
fn call_on(
    alloc: Global,
    callee: &Value,
    this: Value,
    args: Values,
    meter: &mut Meter,
) -> Result<Next, OutOfMemory>
    requires { meter.old.depth ≢ 0 }
    ensures { (w : Store) →
        IfOk result (λ n.
        Descends (λ calls. calls.call callee.now this args) w meter.old n w meter.new) }
{
    let call = CallFrame {
        construct: false,
        callee: callee.clone()?,
        this,
        args,
    };
    run_call(alloc, call, meter)
}

// With the elements of what must be an array.
fn apply_list(
    state: &mut State,
    callee: &Value,
    this: Value,
    list: &Value,
    meter: &mut Meter,
) -> Result<Next, OutOfMemory>
    requires { meter.old.depth ≢ 0 }
    ensures { IfOk result (λ n.
        Descends (λ calls. on_list list.now (spec.apply_elements calls callee.now this)) state.old
        meter.old n state.new meter.new) }
{
    match state.as_list(list) {
        Some(at) => apply_elements(state, callee, this, at, meter),
        None => {
            let fault = state.raise(Throw::WrongArgument);
            give(Err(fault))
        }
    }
}

// The elements are gathered turn by turn.
fn apply_elements(
    state: &State,
    callee: &Value,
    this: Value,
    list: ObjId,
    meter: &mut Meter,
) -> Result<Next, OutOfMemory>
    requires { meter.old.depth ≢ 0 }
    ensures { IfOk result (λ n.
        Descends (λ calls. spec.apply_elements calls callee.now this list) state.now meter.old n
        state.now meter.new) }
{
    let length = state.length_of(list)?;
    let mut steps = meter.steps;
    let gathered = gather(state, &mut steps, list, length);
    meter.steps = steps;
    match gathered {
        Ok(args) => call_on(state.alloc(), callee, this, args, meter),
        Err(halt) => stop(halt),
    }
}

// The elements of an array; a hole is undefined.
fn gather(state: &State, steps: &mut u64, list: ObjId, length: u64) -> Result<Values, Halt>
    ensures { Tells (λ _. spec.gather list [] 0 length) state.now steps.old state.now steps.new
        result }
{
    let mut args = Values::new(state.alloc());
    for index in 0..length {
        take_turn(steps)?;
        args.push(state.element_or_undefined(list, index)?)?;
    }
    Ok(args)
}

// The `length` of a bound function: the formals that are left.
fn bound_props(alloc: Global, formals: u64, count: u64) -> Result<Properties, OutOfMemory>
    ensures { IfOk result (λ props. props ≡ (length_name, fixed (number (formals - count))) ∷ []) }
{
    let name = ascii_text(alloc, b"length")?;
    let length = index_value(formals.saturating_sub(count))?;
    let mut props = Properties::new(alloc);
    props.push(&name, Prop::fixed(length))?;
    Ok(props)
}

// A new bound function (section 15.3.4.5).
fn make_bound(
    state: &mut State,
    target: ObjId,
    this: Value,
    args: Values,
    formals: u64,
) -> Result<ObjId, OutOfMemory>
    ensures { IfOk result (λ at.
        Does (λ _. make (spec.bound_object target this args formals)
        (spec.bound_fit target this args formals) refl) state.old at state.new) }
{
    let props = bound_props(state.alloc(), formals, args.len() as u64)?;
    let class = Class::Bound { target, this, args };
    state.make(class, Some(FUNCTION_PROTOTYPE), props)
}

// The function is bound to the first argument and those behind it.
fn bind_to(state: &mut State, target: ObjId, args: &[Value]) -> Result<Value, Fault>
    ensures { Gives itself (λ _. spec.bind_to target (spec_argument args.now 0) (drop 1 args.now))
        state.old state.new result }
{
    let this = argument(args, 0)?;
    let own = values_of(state.alloc(), arguments_from(args, 1))?;
    let formals = state.length_of(target)?;
    Ok(Value::Object(make_bound(state, target, this, own, formals)?))
}

// `bind`: what is no function is refused (section 15.3.4.5).
fn bind(state: &mut State, target: &Value, args: &[Value]) -> Result<Value, Fault>
    ensures { Gives itself (λ _. spec.bind_function target.now args.now) state.old state.new
        result }
{
    match target {
        Value::Object(at) => if state.is_function(target) {
            bind_to(state, *at, args)
        } else {
            Err(state.raise(Throw::WrongArgument))
        },
        _ => Err(state.raise(Throw::WrongArgument)),
    }
}

// The text of what must be an array, by its `join` where that is a function (section 15.4.4.2).
fn list_text(state: &mut State, this: &Value, meter: &mut Meter) -> Result<Next, OutOfMemory>
    requires { meter.old.depth ≢ 0 }
    ensures { IfOk result (λ n.
        Descends (λ calls. on_list this.now (spec.list_text calls)) state.old meter.old n state.new
        meter.new) }
{
    match state.as_list(this) {
        Some(list) => {
            let maker = text_maker(state, list)?;
            call_without(state.alloc(), &maker, Value::Object(list), meter)
        }
        None => {
            let fault = state.raise(Throw::WrongArgument);
            give(Err(fault))
        }
    }
}

// What makes a text of an array.
fn text_maker(state: &State, list: ObjId) -> Result<Value, OutOfMemory>
    ensures { IfOk result (λ v. v ≡ spec.text_maker list state.now) }
{
    let name = ascii_text(state.alloc(), b"join")?;
    let join = state.get_at(list, &name)?;
    if state.is_function(&join) {
        Ok(join)
    } else {
        Ok(Value::Object(function_at(BuiltIn::ObjectPrototypeToString)))
    }
}

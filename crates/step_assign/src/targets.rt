//! The target of a for-in takes a name: it is a name, or a property whose base and key are evaluated anew for each (ECMA-262 5.1 section 12.6.4).

ghost use Rattle.std.specs.Prelude.{IfOk};
ghost use Rattle.page_frames.specs.RestProperties as spec;
ghost use Rattle.page_frames.specs.Step.{Begins, Steps};
ghost use Rattle.page_state.specs.Does.{Gives, itself};
ghost use Rattle.step_assign.specs.Waiting.{RunsTarget, TargetGoes};

use code_table::Kind;
use js_core::{OutOfMemory, Units};
use js_values::Value;
use page_frames::{Begin, BoxedFrame, Frame, Meter, Next, Spot, TargetFrame};
use page_meaning::Signal;
use page_state::{Fault, State};
use step_parts::{give, plain};

/// The target of a for-in begins to take a value (section 12.6.4). What is no target gives the value back.
pub fn begin_target(
    state: &mut State,
    spot: Spot,
    value: Value,
    meter: &mut Meter,
) -> Result<Next, OutOfMemory>
    ensures { IfOk result (λ n. Begins (Begin.Target spot value)
        state.old meter.old n state.new meter.new) }
{
    match spot.kind() {
        Kind::Name(name) => give(state.assign_name(spot.env(), name, value)),
        Kind::Member(_) => run_target(state, spot, value, None, 0, meter),
        Kind::Index => run_target(state, spot, value, None, 0, meter),
        _ => Ok(Next::Give(Signal::Value(value))),
    }
}

// The kth part runs, and then the target goes on with what it has got.
fn run_target(
    state: &State,
    spot: Spot,
    value: Value,
    base: Option<Value>,
    k: u64,
    meter: &Meter,
) -> Result<Next, OutOfMemory>
    ensures { IfOk result (λ n. RunsTarget spot value base k state.now meter.now n) }
{
    let number = spot.part(k);
    match plain(state, &spot, number)? {
        Some(part) => {
            let frame = Frame::Target(TargetFrame { spot, value, base });
            let boxed = BoxedFrame::of(state.alloc(), frame)?;
            Ok(Next::Go(boxed, Signal::Value(part)))
        }
        None => {
            let part = spot.at(number)?;
            let frame = Frame::Target(TargetFrame { spot, value, base });
            let boxed = BoxedFrame::of(state.alloc(), frame)?;
            Ok(Next::Then(boxed, Begin::Node(part)))
        }
    }
}

/// The target of a for-in goes on from the end of its base or its key (section 12.6.4).
pub fn go_target(
    state: &mut State,
    frame: TargetFrame,
    end: Signal,
    meter: &mut Meter,
) -> Result<Next, OutOfMemory>
    ensures { IfOk result (λ n. Steps (Frame.Target frame) end
        state.old meter.old n state.new meter.new) }
{
    match end {
        Signal::Value(part) => go_part(state, frame, part, meter),
        other => Ok(Next::Give(other)),
    }
}

// From the value of its base or its key.
fn go_part(
    state: &mut State,
    frame: TargetFrame,
    part: Value,
    meter: &Meter,
) -> Result<Next, OutOfMemory>
    ensures { IfOk result (λ n. TargetGoes frame.spot frame.value frame.base part
        state.old meter.now n state.new) }
{
    let TargetFrame { spot, value, base } = frame;
    match spot.kind() {
        Kind::Member(name) => give(put_member(state, name, value, &part)),
        Kind::Index => match base {
            None => run_target(state, spot, value, Some(part), 1, meter),
            Some(base) => give(put_index(state, &base, &part, value)),
        },
        _ => Ok(Next::Give(Signal::Value(part))),
    }
}

// A property takes the value, by its name.
fn put_member(state: &mut State, name: &Units, value: Value, base: &Value) -> Result<Value, Fault>
    ensures { Gives itself (λ calls. spec.rest_target_member calls name.now value base.now)
        state.old state.new result }
{
    let tested = state.with_properties(base)?;
    state.put_member(&tested, name, value)
}

// A property takes the value, by the value in brackets.
fn put_index(state: &mut State, base: &Value, key: &Value, value: Value) -> Result<Value, Fault>
    ensures { Gives itself (λ calls. spec.put_target calls value base.now key.now)
        state.old state.new result }
{
    let name = state.key_of(base, key)?;
    state.put_member(base, &name, value)
}

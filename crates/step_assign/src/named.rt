//! Names that are assigned or declared: a name is resolved before its right side runs, and read where there is an operator (ECMA-262 5.1
//! sections 11.13 and 12.2).

ghost use Rattle.std.specs.Prelude.{◌≡◌, IfOk, Some};
ghost use Rattle.code_table.specs.Kind.{kind_of};
ghost use Rattle.page_meaning.specs.Act.{also};
ghost use Rattle.page_meaning.specs.Expressions.{assigned};
ghost use Rattle.page_meaning.specs.Names as spec_names;
ghost use Rattle.page_meaning.specs.Operators.{operate};
ghost use Rattle.page_frames.specs.Rest.{rest_name};
ghost use Rattle.page_frames.specs.Step.{Opens, Steps};
ghost use Rattle.page_frames.specs.Where.{spot_node};
ghost use Rattle.page_state.specs.Does.{Gives, itself};
ghost use Rattle.step_parts.specs.Families.{family_of};
ghost use Rattle.step_parts.specs.declared.family.Family.TheVariants.{Named};
ghost use Rattle.step_assign.specs.Waiting.{ReadsThenRuns, RunsRight};

use code_table::Kind;
use js_core::{BinaryOp, OutOfMemory, Units};
use js_values::Value;
use page_frames::{Begin, BoxedFrame, Frame, Meter, NameFrame, Next, Spot};
use page_meaning::{Reference, Signal};
use page_state::{Fault, State};
use step_parts::{give, plain};

/// A name that is assigned or declared begins (sections 11.13 and 12.2).
pub fn begin_named(state: &mut State, spot: Spot, meter: &Meter) -> Result<Next, OutOfMemory>
    requires { family_of (kind_of (spot_node spot)) ≡ Named }
    ensures { IfOk result (λ n. Opens spot state.old meter.now n state.new meter.now) }
{
    match spot.kind() {
        Kind::AssignName(op, name) => {
            let op = *op;
            let name = name.clone()?;
            begin_assigned(state, spot, op, &name, meter)
        }
        Kind::Declarator(name) => {
            let reference = state.resolve(spot.env(), name);
            run_right(state, spot, reference, None, meter)
        }
        _ => unreachable!(),
    }
}

// An assignment to a name begins.
fn begin_assigned(
    state: &mut State,
    spot: Spot,
    op: Option<BinaryOp>,
    name: &Units,
    meter: &Meter,
) -> Result<Next, OutOfMemory>
    requires { kind_of (spot_node spot) ≡ Kind.AssignName op name.now }
    ensures { IfOk result (λ n. Opens spot state.old meter.now n state.new meter.now) }
{
    let reference = state.resolve(spot.env(), name);
    match op {
        None => run_right(state, spot, reference, None, meter),
        Some(op) => read_named(state, spot, op, name, reference, meter),
    }
}

// The name is read before the right side runs.
fn read_named(
    state: &mut State,
    spot: Spot,
    op: BinaryOp,
    name: &Units,
    reference: Reference,
    meter: &Meter,
) -> Result<Next, OutOfMemory>
    requires { kind_of (spot_node spot) ≡ Kind.AssignName (Some op) name.now }
    ensures { IfOk result (λ n.
        ReadsThenRuns spot op name.now reference state.old meter.now n state.new) }
{
    match state.read(name, reference) {
        Ok(old) => run_right(state, spot, reference, Some(old), meter),
        Err(fault) => give(Err(fault)),
    }
}

// The right side runs, and then the name goes on by what it meant; at once where the right side is read at once.
fn run_right(
    state: &mut State,
    spot: Spot,
    reference: Reference,
    old: Option<Value>,
    meter: &Meter,
) -> Result<Next, OutOfMemory>
    ensures { IfOk result (λ n. RunsRight spot reference old state.old meter.now n state.new) }
{
    let number = spot.part(0);
    match plain(state, &spot, number)? {
        Some(value) => give(put_named(state, &spot, reference, &old, value)),
        None => {
            let part = spot.at(number)?;
            let frame = Frame::Name(NameFrame {
                spot,
                reference,
                old,
            });
            let boxed = BoxedFrame::of(state.alloc(), frame)?;
            Ok(Next::Then(boxed, Begin::Node(part)))
        }
    }
}

/// A name that is assigned or declared goes on from the end of its right side (sections 11.13 and 12.2).
pub fn go_name(
    state: &mut State,
    frame: NameFrame,
    end: Signal,
    meter: &mut Meter,
) -> Result<Next, OutOfMemory>
    ensures { IfOk result (λ n. Steps (Frame.Name frame) end
        state.old meter.old n state.new meter.new) }
{
    match end {
        Signal::Value(value) => give(put_named(
            state,
            &frame.spot,
            frame.reference,
            &frame.old,
            value,
        )),
        other => Ok(Next::Give(other)),
    }
}

// The name takes what its right side gave.
fn put_named(
    state: &mut State,
    spot: &Spot,
    reference: Reference,
    old: &Option<Value>,
    value: Value,
) -> Result<Value, Fault>
    ensures { Gives itself (λ calls.
        rest_name calls (kind_of (spot_node spot.now)) reference old.now value)
        state.old state.new result }
{
    match spot.kind() {
        Kind::AssignName(op, name) => put_assigned(state, *op, name, reference, old, value),
        Kind::Declarator(name) => state.write(name, reference, value),
        _ => Ok(value),
    }
}

// The same of an assignment.
fn put_assigned(
    state: &mut State,
    op: Option<BinaryOp>,
    name: &Units,
    reference: Reference,
    old: &Option<Value>,
    value: Value,
) -> Result<Value, Fault>
    ensures { Gives itself (λ calls.
        rest_name calls (Kind.AssignName op name.now) reference old.now value)
        state.old state.new result }
{
    match op {
        None => put_name(state, name, reference, value),
        Some(op) => match old {
            None => Ok(value),
            Some(left) => put_operated(state, op, name, reference, left, &value),
        },
    }
}

// The name takes what the operator makes of its old value and the right side.
fn put_operated(
    state: &mut State,
    op: BinaryOp,
    name: &Units,
    reference: Reference,
    old: &Value,
    value: &Value,
) -> Result<Value, Fault>
    ensures { Gives itself (λ calls. also (operate calls op old.now value.now)
        (assigned (spec_names.write name.now reference))) state.old state.new result }
{
    let new = state.operate(op, old, value)?;
    put_name(state, name, reference, new)
}

// The name takes the value, which is given.
fn put_name(
    state: &mut State,
    name: &Units,
    reference: Reference,
    value: Value,
) -> Result<Value, Fault>
    ensures { Gives itself (λ _. assigned (spec_names.write name.now reference) value)
        state.old state.new result }
{
    let given = value.clone()?;
    let _written = state.write(name, reference, value)?;
    Ok(given)
}

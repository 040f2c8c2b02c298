//! Operators on values, and choices (ECMA-262 5.1 sections 11.4 to 11.12).

ghost use Rattle.std.specs.Prelude.{◌≡◌, [], IfOk};
ghost use Rattle.code_table.specs.Kind.{kind_of};
ghost use Rattle.page_frames.specs.Step.{Moves};
ghost use Rattle.page_frames.specs.Where.{spot_node};
ghost use Rattle.step_parts.specs.declared.family.Family.TheVariants.{Operator};
ghost use Rattle.step_parts.specs.Families.{family_of};

use crate::sides::run_right;
use code_table::Kind;
use js_core::{BinaryOp, OutOfMemory};
use js_values::Value;
use object_heap::Values;
use page_frames::{Meter, Next, Spot};
use page_meaning::Signal;
use page_state::State;
use step_parts::{enter_part, give};
use whole_ops::is_true;

/// An operator on values or a choice goes on with the value of a part (sections 11.4 to 11.12).
pub fn go_operator(
    state: &mut State,
    spot: Spot,
    turn: u64,
    got: Values,
    value: Value,
    meter: &Meter,
) -> Result<Next, OutOfMemory>
    requires { family_of (kind_of (spot_node spot)) ≡ Operator }
    ensures { IfOk result (λ n.
        Moves spot (kind_of (spot_node spot)) turn got value state.old meter.now n state.new) }
{
    match spot.kind() {
        Kind::Unary(op) => give(state.operate_one(*op, &value)),
        Kind::Binary(op) => {
            let op = *op;
            go_binary(state, spot, op, got, value, meter)
        }
        Kind::And => go_and(state, &spot, value, meter),
        Kind::Or => go_or(state, &spot, value, meter),
        Kind::Cond => go_conditional(state, &spot, &value, meter),
        _ => unreachable!(),
    }
}

// A binary operator after one of its sides (sections 11.5 to 11.10).
fn go_binary(
    state: &mut State,
    spot: Spot,
    op: BinaryOp,
    got: Values,
    value: Value,
    meter: &Meter,
) -> Result<Next, OutOfMemory>
    requires { kind_of (spot_node spot) ≡ Kind.Binary op }
    ensures { IfOk result (λ n.
        Moves spot (Kind.Binary op) 0 got value state.old meter.now n state.new) }
{
    match got.as_slice().first() {
        None => run_right(state, spot, value, meter),
        Some(left) => give(state.operate(op, left, &value)),
    }
}

// `&&` after its left side (section 11.11).
fn go_and(state: &State, spot: &Spot, value: Value, meter: &Meter) -> Result<Next, OutOfMemory>
    ensures { IfOk result (λ n.
        Moves spot.now Kind.And 0 [] value state.now meter.now n state.now) }
{
    if is_true(&value) {
        enter_part(state, spot, 1, meter)
    } else {
        Ok(Next::Give(Signal::Value(value)))
    }
}

// `||` after its left side (section 11.11).
fn go_or(state: &State, spot: &Spot, value: Value, meter: &Meter) -> Result<Next, OutOfMemory>
    ensures { IfOk result (λ n. Moves spot.now Kind.Or 0 [] value state.now meter.now n state.now) }
{
    if is_true(&value) {
        Ok(Next::Give(Signal::Value(value)))
    } else {
        enter_part(state, spot, 1, meter)
    }
}

// `? :` after its test (section 11.12).
fn go_conditional(
    state: &State,
    spot: &Spot,
    value: &Value,
    meter: &Meter,
) -> Result<Next, OutOfMemory>
    ensures { IfOk result (λ n.
        Moves spot.now Kind.Cond 0 [] value.now state.now meter.now n state.now) }
{
    if is_true(value) {
        enter_part(state, spot, 1, meter)
    } else {
        enter_part(state, spot, 2, meter)
    }
}

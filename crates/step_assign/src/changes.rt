//! Properties that are updated or assigned: their base, then their key, and then, for an assignment, the right side (ECMA-262 5.1 sections
//! 11.3, 11.4.4, 11.4.5 and 11.13). Where there is an operator, the old value is read before the right side runs.

ghost use Rattle.std.specs.Prelude.{◌≡◌, ◌∷◌, [], IfOk, None, Some};
ghost use Rattle.code_table.specs.Kind.{kind_of};
ghost use Rattle.js_values.specs.declared.value.Value.TheVariants.{Text};
ghost use Rattle.page_frames.specs.Step.{Goes, Moves};
ghost use Rattle.page_frames.specs.Where.{spot_node};
ghost use Rattle.step_assign.specs.Waiting.{RunsNamed};
ghost use Rattle.step_parts.specs.Families.{family_of};
ghost use Rattle.step_parts.specs.declared.family.Family.TheVariants.{Change};

use crate::puts::{put_by_text, put_right};
use crate::updates::{update_index, update_member};
use code_table::Kind;
use js_core::{BinaryOp, OutOfMemory, Units};
use js_values::Value;
use object_heap::Values;
use page_frames::{Meter, Next, Spot};
use page_state::State;
use step_parts::{give, run_part};

/// A property that is updated or assigned goes on with the value of one of its parts (sections 11.3, 11.4.4, 11.4.5 and 11.13).
pub fn go_change(
    state: &mut State,
    spot: Spot,
    turn: u64,
    got: Values,
    value: Value,
    meter: &Meter,
) -> Result<Next, OutOfMemory>
    requires { family_of (kind_of (spot_node spot)) ≡ Change }
    ensures { IfOk result (λ n. Moves spot (kind_of (spot_node spot)) turn got value
        state.old meter.now n state.new) }
{
    match spot.kind() {
        Kind::UpdateMember(up, prefix, name) => give(update_member(
            state, *up, *prefix, &value, name,
        )),
        Kind::UpdateIndex(up, prefix) => {
            let (up, prefix) = (*up, *prefix);
            go_update(state, spot, up, prefix, got, value, meter)
        }
        Kind::AssignMember(op, name) => {
            let op = *op;
            let name = name.clone()?;
            go_member(state, spot, op, &name, got, value, meter)
        }
        Kind::AssignIndex(op) => {
            let op = *op;
            go_index(state, spot, op, got, value, meter)
        }
        _ => unreachable!(),
    }
}

// The second part runs, once the base is known.
fn run_second(state: &State, spot: Spot, base: Value, meter: &Meter) -> Result<Next, OutOfMemory>
    ensures { IfOk result (λ n.
        Goes spot (kind_of (spot_node spot)) 1 (base ∷ []) 1 state.now meter.now n) }
{
    let mut got = Values::new(state.alloc());
    got.push(base)?;
    run_part(state, spot, 1, got, 1, meter)
}

// `base[key]++` and its like, from the base or from the key.
fn go_update(
    state: &mut State,
    spot: Spot,
    up: bool,
    prefix: bool,
    got: Values,
    value: Value,
    meter: &Meter,
) -> Result<Next, OutOfMemory>
    requires { kind_of (spot_node spot) ≡ Kind.UpdateIndex up prefix }
    ensures { IfOk result (λ n. Moves spot (Kind.UpdateIndex up prefix) 0 got value
        state.old meter.now n state.new) }
{
    match got.as_slice().split_first() {
        None => run_second(state, spot, value, meter),
        Some((base, _more)) => give(update_index(state, up, prefix, base, &value)),
    }
}

// `base.name = right` and its like, from the base or from the right side.
fn go_member(
    state: &mut State,
    spot: Spot,
    op: Option<BinaryOp>,
    name: &Units,
    got: Values,
    value: Value,
    meter: &Meter,
) -> Result<Next, OutOfMemory>
    requires { kind_of (spot_node spot) ≡ Kind.AssignMember op name.now }
    ensures { IfOk result (λ n. Moves spot (Kind.AssignMember op name.now) 0 got value
        state.old meter.now n state.new) }
{
    match got.as_slice().split_first() {
        None => match op {
            None => test_base(state, spot, name, value, meter),
            Some(op) => read_base(state, spot, op, name, value, meter),
        },
        Some((base, olds)) => give(put_right(state, op, base, name, olds, value)),
    }
}

// The base is tested before the right side runs.
fn test_base(
    state: &mut State,
    spot: Spot,
    name: &Units,
    base: Value,
    meter: &Meter,
) -> Result<Next, OutOfMemory>
    requires { kind_of (spot_node spot) ≡ Kind.AssignMember None name.now }
    ensures { IfOk result (λ n. Moves spot (Kind.AssignMember None name.now) 0 [] base
        state.old meter.now n state.new) }
{
    match state.with_properties(&base) {
        Ok(tested) => run_second(state, spot, tested, meter),
        Err(fault) => give(Err(fault)),
    }
}

// The property is read before the right side runs.
fn read_base(
    state: &mut State,
    spot: Spot,
    op: BinaryOp,
    name: &Units,
    base: Value,
    meter: &Meter,
) -> Result<Next, OutOfMemory>
    requires { kind_of (spot_node spot) ≡ Kind.AssignMember (Some op) name.now }
    ensures { IfOk result (λ n. Moves spot (Kind.AssignMember (Some op) name.now) 0 [] base
        state.old meter.now n state.new) }
{
    match state.get_member(&base, name) {
        Ok(old) => run_beside(state, spot, base, old, meter),
        Err(fault) => give(Err(fault)),
    }
}

// The second part runs, once the base and the old value are known.
fn run_beside(
    state: &State,
    spot: Spot,
    base: Value,
    old: Value,
    meter: &Meter,
) -> Result<Next, OutOfMemory>
    ensures { IfOk result (λ n.
        Goes spot (kind_of (spot_node spot)) 1 (base ∷ old ∷ []) 1 state.now meter.now n) }
{
    let mut got = Values::new(state.alloc());
    got.push(base)?;
    got.push(old)?;
    run_part(state, spot, 1, got, 1, meter)
}

// `base[key] = right` and its like, from the base, the key or the right side.
fn go_index(
    state: &mut State,
    spot: Spot,
    op: Option<BinaryOp>,
    got: Values,
    value: Value,
    meter: &Meter,
) -> Result<Next, OutOfMemory>
    requires { kind_of (spot_node spot) ≡ Kind.AssignIndex op }
    ensures { IfOk result (λ n. Moves spot (Kind.AssignIndex op) 0 got value
        state.old meter.now n state.new) }
{
    match got.as_slice().split_first() {
        None => run_second(state, spot, value, meter),
        Some((base, more)) => match more.split_first() {
            None => go_key(state, spot, op, base, &value, meter),
            Some((key, olds)) => give(put_by_text(state, op, base, key, olds, value)),
        },
    }
}

// The name is made of the key, and the right side runs.
fn go_key(
    state: &mut State,
    spot: Spot,
    op: Option<BinaryOp>,
    base: &Value,
    key: &Value,
    meter: &Meter,
) -> Result<Next, OutOfMemory>
    requires { kind_of (spot_node spot) ≡ Kind.AssignIndex op }
    ensures { IfOk result (λ n. Moves spot (Kind.AssignIndex op) 0 (base.now ∷ []) key.now
        state.old meter.now n state.new) }
{
    match state.key_of(base, key) {
        Ok(name) => run_right(state, spot, op, base, name, meter),
        Err(fault) => give(Err(fault)),
    }
}

// The right side runs, once the base and the name are known; where there is an operator, the property is read before.
fn run_right(
    state: &mut State,
    spot: Spot,
    op: Option<BinaryOp>,
    base: &Value,
    name: Units,
    meter: &Meter,
) -> Result<Next, OutOfMemory>
    requires { kind_of (spot_node spot) ≡ Kind.AssignIndex op }
    ensures { IfOk result (λ n. RunsNamed spot op base.now name state.old meter.now n state.new) }
{
    match op {
        None => run_named(state, spot, base, name, meter),
        Some(op) => read_named(state, spot, op, base, name, meter),
    }
}

// The third part runs, once the base and the name are known.
fn run_named(
    state: &State,
    spot: Spot,
    base: &Value,
    name: Units,
    meter: &Meter,
) -> Result<Next, OutOfMemory>
    ensures { IfOk result (λ n. Goes spot (kind_of (spot_node spot)) 2
        (base.now ∷ Text name ∷ []) 2 state.now meter.now n) }
{
    let mut got = Values::new(state.alloc());
    got.push(base.clone()?)?;
    got.push(Value::Text(name))?;
    run_part(state, spot, 2, got, 2, meter)
}

// The property is read before the right side runs.
fn read_named(
    state: &mut State,
    spot: Spot,
    op: BinaryOp,
    base: &Value,
    name: Units,
    meter: &Meter,
) -> Result<Next, OutOfMemory>
    requires { kind_of (spot_node spot) ≡ Kind.AssignIndex (Some op) }
    ensures { IfOk result (λ n.
        RunsNamed spot (Some op) base.now name state.old meter.now n state.new) }
{
    match state.read_property(base, &name) {
        Ok(old) => run_known(state, spot, base, name, old, meter),
        Err(fault) => give(Err(fault)),
    }
}

// The third part runs, once the base, the name and the old value are known.
fn run_known(
    state: &State,
    spot: Spot,
    base: &Value,
    name: Units,
    old: Value,
    meter: &Meter,
) -> Result<Next, OutOfMemory>
    ensures { IfOk result (λ n. Goes spot (kind_of (spot_node spot)) 2
        (base.now ∷ Text name ∷ old ∷ []) 2 state.now meter.now n) }
{
    let mut got = Values::new(state.alloc());
    got.push(base.clone()?)?;
    got.push(Value::Text(name))?;
    got.push(old)?;
    run_part(state, spot, 2, got, 2, meter)
}

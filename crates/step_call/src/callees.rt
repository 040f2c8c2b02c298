//! What is called, and `this` (ECMA-262 5.1 sections 11.2.2 and 11.2.3).

ghost use Rattle.std.specs.Prelude.{◌≡◌, ◌⊎◌, ◌∷◌, [], IfOk, ℕ};
ghost use Rattle.code_table.specs.Kind.{kind_of};
ghost use Rattle.js_values.specs.declared.value.Value.TheVariants.{Undefined};
ghost use Rattle.page_meaning.specs.Act.{Act, Calls, also};
ghost use Rattle.page_meaning.specs.Calls.{calls_at};
ghost use Rattle.page_meaning.specs.Store.{Store};
ghost use Rattle.page_frames.specs.RestCalls.{args_from};
ghost use Rattle.page_frames.specs.Step.{Leads, Moves};
ghost use Rattle.page_frames.specs.Weight.{weigh};
ghost use Rattle.page_frames.specs.Where.{here_of, spot_node};
ghost use Rattle.page_state.specs.Does.{Gives, itself};
ghost use Rattle.step_parts.specs.Families.{family_of};
ghost use Rattle.step_call.specs.Arguments.{arg_part};

use crate::arguments::{next_argument, one_more};
use code_table::Kind;
use js_core::{OutOfMemory, Units};
use js_values::Value;
use object_heap::Values;
use page_frames::{Meter, Next, Spot};
use page_state::{Fault, State};
use step_parts::{Family, give, run_part};

/// A call or a construction goes on with the value of a part: its callee's parts, and then its arguments (sections 11.2.2 and 11.2.3).
pub fn go_call(
    state: &mut State,
    spot: Spot,
    turn: u64,
    got: Values,
    value: Value,
    meter: &Meter,
) -> Result<Next, OutOfMemory>
    requires { family_of (kind_of (spot_node spot)) ≡ Family.Call }
    ensures { IfOk result (λ n.
        Moves spot (kind_of (spot_node spot)) turn got value state.old meter.now n state.new) }
{
    match spot.kind() {
        Kind::CallMember(name) => {
            let name = name.clone()?;
            go_member(state, spot, turn, &name, got, value, meter)
        }
        Kind::CallIndex => go_index(state, spot, turn, got, value, meter),
        Kind::Call | Kind::New => go_plain(state, spot, turn, got, value, meter),
        _ => unreachable!(),
    }
}

// A callee that is no property, or is constructed, has no `this`.
fn go_plain(
    state: &State,
    spot: Spot,
    turn: u64,
    got: Values,
    value: Value,
    meter: &Meter,
) -> Result<Next, OutOfMemory>
    requires { (kind_of (spot_node spot) ≡ Kind.Call) ⊎ (kind_of (spot_node spot) ≡ Kind.New) }
    ensures { IfOk result (λ n.
        Moves spot (kind_of (spot_node spot)) turn got value state.now meter.now n state.now) }
{
    if got.len() == 0 {
        with_callee(state, spot, turn, Value::Undefined, value, meter)
    } else {
        one_more(state, spot, turn, got, value, meter)
    }
}

// A property that is named: its base is `this`.
fn go_member(
    state: &mut State,
    spot: Spot,
    turn: u64,
    name: &Units,
    got: Values,
    value: Value,
    meter: &Meter,
) -> Result<Next, OutOfMemory>
    requires { kind_of (spot_node spot) ≡ Kind.CallMember name.now }
    ensures { IfOk result (λ n.
        Moves spot (kind_of (spot_node spot)) turn got value state.old meter.now n state.new) }
{
    if got.len() == 0 {
        let callee = state.get_member(&value, name);
        with_property(state, spot, turn, value, callee, meter)
    } else {
        one_more(state, spot, turn, got, value, meter)
    }
}

// A property in brackets: its base, which is `this`, waits for the key.
fn go_index(
    state: &mut State,
    spot: Spot,
    turn: u64,
    got: Values,
    value: Value,
    meter: &Meter,
) -> Result<Next, OutOfMemory>
    requires { kind_of (spot_node spot) ≡ Kind.CallIndex }
    ensures { IfOk result (λ n.
        Moves spot (kind_of (spot_node spot)) turn got value state.old meter.now n state.new) }
{
    match got.as_slice() {
        [] => {
            let mut base = got;
            base.push(value)?;
            run_part(state, spot, turn, base, 1, meter)
        }
        [base] => {
            let base = base.clone()?;
            let callee = state.get_index(&base, &value);
            with_property(state, spot, turn, base, callee, meter)
        }
        _ => one_more(state, spot, turn, got, value, meter),
    }
}

// The property is the callee, or reading it threw.
fn with_property(
    state: &State,
    spot: Spot,
    turn: u64,
    this: Value,
    callee: Result<Value, Fault>,
    meter: &Meter,
) -> Result<Next, OutOfMemory>
    requires { family_of (kind_of (spot_node spot)) ≡ Family.Call }
    ensures { (act : Calls → Act) (s : Store) → Gives itself act s state.now callee →
        IfOk result (λ n.
        Leads (also (act (calls_at meter.now.depth)) (λ f.
        args_from (calls_at meter.now.depth) (here_of spot) (spot_node spot) (this ∷ f ∷ [])))
        (weigh (spot_node spot) (arg_part (kind_of (spot_node spot)) (this ∷ Undefined ∷ []))) s
        meter.now n state.now meter.now) }
{
    match callee {
        Ok(callee) => with_callee(state, spot, turn, this, callee, meter),
        Err(fault) => give(Err(fault)),
    }
}

// `this` and the callee are there, and no argument yet.
fn with_callee(
    state: &State,
    spot: Spot,
    turn: u64,
    this: Value,
    callee: Value,
    meter: &Meter,
) -> Result<Next, OutOfMemory>
    requires { family_of (kind_of (spot_node spot)) ≡ Family.Call }
    ensures { IfOk result (λ n.
        Leads (args_from (calls_at meter.now.depth) (here_of spot) (spot_node spot)
        (this ∷ callee ∷ [])) (weigh (spot_node spot) (arg_part (kind_of (spot_node spot))
        (this ∷ callee ∷ []))) state.now meter.now n state.now meter.now) }
{
    let mut got = Values::new(state.alloc());
    got.push(this)?;
    got.push(callee)?;
    next_argument(state, spot, turn, got, meter)
}

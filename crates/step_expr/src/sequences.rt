//! Literals and comma expressions, whose parts run in turn (ECMA-262 5.1 sections 11.1.4, 11.1.5 and 11.14).

ghost use Rattle.std.specs.Prelude.{◌≡◌, IfOk, suc};
ghost use Rattle.code_table.specs.Kind.{kind_of};
ghost use Rattle.page_meaning.specs.Calls.{calls_at};
ghost use Rattle.page_frames.specs.RestExpressions.{each_from};
ghost use Rattle.page_frames.specs.Step.{Leads, Moves, Opens};
ghost use Rattle.page_frames.specs.Weight.{weigh};
ghost use Rattle.page_frames.specs.Where.{here_of, spot_node};
ghost use Rattle.step_parts.specs.declared.family.Family.TheVariants.{Sequence};
ghost use Rattle.step_parts.specs.Families.{family_of};

use crate::elements::{begin_list, go_list};
use crate::fields::{begin_literal, go_literal};
use crate::held::after;
use code_table::Kind;
use js_core::OutOfMemory;
use js_values::Value;
use object_heap::Values;
use page_frames::{Meter, Next, Spot};
use page_meaning::Signal;
use page_state::State;
use step_parts::run_part;

/// A literal or a comma expression begins (sections 11.1.4, 11.1.5 and 11.14).
pub fn begin_sequence(state: &mut State, spot: Spot, meter: &Meter) -> Result<Next, OutOfMemory>
    requires { family_of (kind_of (spot_node spot)) ≡ Sequence }
    ensures { IfOk result (λ n. Opens spot state.old meter.now n state.new meter.now) }
{
    match spot.kind() {
        Kind::List => begin_list(state, spot, meter),
        Kind::Literal(_) => begin_literal(state, spot, meter),
        Kind::Comma => parts_from(state, spot, 0, Value::Undefined, meter),
        _ => unreachable!(),
    }
}

/// A literal or a comma expression goes on with the value of a part (sections 11.1.4, 11.1.5 and 11.14).
pub fn go_sequence(
    state: &mut State,
    spot: Spot,
    turn: u64,
    got: Values,
    value: Value,
    meter: &Meter,
) -> Result<Next, OutOfMemory>
    requires { family_of (kind_of (spot_node spot)) ≡ Sequence }
    ensures { IfOk result (λ n.
        Moves spot (kind_of (spot_node spot)) turn got value state.old meter.now n state.new) }
{
    match spot.kind() {
        Kind::List => go_list(state, spot, turn, got, value, meter),
        Kind::Literal(_) => go_literal(state, spot, turn, got, value, meter),
        Kind::Comma => go_comma(state, spot, turn, value, meter),
        _ => unreachable!(),
    }
}

// A comma expression goes on with the value of a part.
fn go_comma(
    state: &State,
    spot: Spot,
    turn: u64,
    value: Value,
    meter: &Meter,
) -> Result<Next, OutOfMemory>
    requires { kind_of (spot_node spot) ≡ Kind.Comma }
    ensures { IfOk result (λ n.
        Leads (each_from (calls_at meter.now.depth) (here_of spot) (spot_node spot) (suc turn)
        value) (weigh (spot_node spot) (suc turn)) state.now meter.now n state.now meter.now) }
{
    let next = after(turn)?;
    parts_from(state, spot, next, value, meter)
}

// The parts of a comma expression from the kth on: it runs, or the value of the one before it is the value.
fn parts_from(
    state: &State,
    spot: Spot,
    k: u64,
    value: Value,
    meter: &Meter,
) -> Result<Next, OutOfMemory>
    requires { kind_of (spot_node spot) ≡ Kind.Comma }
    ensures { IfOk result (λ n.
        Leads (each_from (calls_at meter.now.depth) (here_of spot) (spot_node spot) k value)
        (weigh (spot_node spot) k) state.now meter.now n state.now meter.now) }
{
    if spot.has_part(k) {
        let got = Values::new(state.alloc());
        run_part(state, spot, k, got, k, meter)
    } else {
        Ok(Next::Give(Signal::Value(value)))
    }
}

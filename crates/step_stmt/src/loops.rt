//! Loops with a test, from the end of what they wait for (ECMA-262 5.1 sections 12.6.1 to 12.6.3).

ghost use Rattle.std.specs.Prelude.{◌≡◌, ◌+◌, IfOk, is_some, true};
ghost use Rattle.code_table.specs.Kind.{kind_of};
ghost use Rattle.code_table.specs.Node.{and_child};
ghost use Rattle.page_meaning.specs.Act.{also, done};
ghost use Rattle.page_meaning.specs.Calls.{calls_at};
ghost use Rattle.page_meaning.specs.Loops.{turn as spec_turn, turn_if};
ghost use Rattle.page_frames.specs.RestLoops as spec;
ghost use Rattle.page_frames.specs.Step.{Leads};
ghost use Rattle.page_frames.specs.Weight.{weigh};
ghost use Rattle.page_frames.specs.Where.{here_of, spot_node};
ghost use Rattle.step_stmt.specs.Turns.{body_of};

use crate::turns::{take_turn, turn_when};
use code_table::Kind;
use js_core::OutOfMemory;
use js_values::Value;
use page_frames::{Meter, Next, Spot};
use page_state::State;
use step_parts::{await_statement, plain, run_statement};

/// A `while` after its test.
pub(crate) fn while_tested(
    state: &State,
    spot: Spot,
    value: &Value,
    meter: &mut Meter,
) -> Result<Next, OutOfMemory>
    requires { kind_of (spot_node spot) ≡ Kind.While }
    ensures { IfOk result (λ n.
        Leads (turn_if (body_of spot meter.old.depth 1) (also done (λ _.
        spec.while_loop (calls_at meter.old.depth) (here_of spot) (spot_node spot))) value.now)
        0 state.now meter.old n state.now meter.new) }
{
    spot.is_small();
    turn_when(state, spot, 1, 1, value, meter)
}

/// A `while` again, or as it begins.
pub(crate) fn while_again(state: &State, spot: Spot, meter: &mut Meter) -> Result<Next, OutOfMemory>
    requires { kind_of (spot_node spot) ≡ Kind.While }
    ensures { IfOk result (λ n.
        Leads (spec.while_loop (calls_at meter.old.depth) (here_of spot) (spot_node spot))
        (weigh (spot_node spot) 0) state.now meter.old n state.now meter.new) }
{
    let number = spot.part(0);
    match plain(state, &spot, number)? {
        Some(value) => while_tested(state, spot, &value, meter),
        None => await_statement(state.alloc(), spot, 0, None, number),
    }
}

/// A `do` as it begins: a turn without a test.
pub(crate) fn do_begun(state: &State, spot: Spot, meter: &mut Meter) -> Result<Next, OutOfMemory>
    requires { kind_of (spot_node spot) ≡ Kind.Do }
    ensures { IfOk result (λ n.
        Leads (spec_turn (body_of spot meter.old.depth 0) (spec.do_loop (calls_at meter.old.depth)
        (here_of spot) (spot_node spot)))
        0 state.now meter.old n state.now meter.new) }
{
    spot.is_small();
    take_turn(state, spot, 0, 0, meter)
}

/// A `do` after its test.
pub(crate) fn do_tested(
    state: &State,
    spot: Spot,
    value: &Value,
    meter: &mut Meter,
) -> Result<Next, OutOfMemory>
    requires { kind_of (spot_node spot) ≡ Kind.Do }
    ensures { IfOk result (λ n.
        Leads (turn_if (body_of spot meter.old.depth 0) (also done (λ _.
        spec.do_loop (calls_at meter.old.depth) (here_of spot) (spot_node spot))) value.now)
        0 state.now meter.old n state.now meter.new) }
{
    spot.is_small();
    turn_when(state, spot, 0, 0, value, meter)
}

/// The test of a `do`, once its body has ended.
pub(crate) fn do_again(state: &State, spot: Spot, meter: &mut Meter) -> Result<Next, OutOfMemory>
    requires { kind_of (spot_node spot) ≡ Kind.Do }
    ensures { IfOk result (λ n.
        Leads (spec.do_loop (calls_at meter.old.depth) (here_of spot) (spot_node spot))
        (weigh (spot_node spot) 1) state.now meter.old n state.now meter.new) }
{
    let number = spot.part(1);
    match plain(state, &spot, number)? {
        Some(value) => do_tested(state, spot, &value, meter),
        None => await_statement(state.alloc(), spot, 1, None, number),
    }
}

/// A `for` after its test.
pub(crate) fn for_tested(
    state: &State,
    spot: Spot,
    value: &Value,
    meter: &mut Meter,
) -> Result<Next, OutOfMemory>
    requires { kind_of (spot_node spot) ≡ Kind.For }
    ensures { IfOk result (λ n.
        Leads (turn_if (body_of spot meter.old.depth 3) (spec.for_again (calls_at meter.old.depth)
        (here_of spot) (spot_node spot)) value.now)
        0 state.now meter.old n state.now meter.new) }
{
    spot.is_small();
    turn_when(state, spot, 3, 3, value, meter)
}

/// The test of a `for`, which is true where it is absent.
pub(crate) fn for_test(state: &State, spot: Spot, meter: &mut Meter) -> Result<Next, OutOfMemory>
    requires { kind_of (spot_node spot) ≡ Kind.For }
    ensures { IfOk result (λ n.
        Leads (spec.for_loop (calls_at meter.old.depth) (here_of spot) (spot_node spot))
        (weigh (spot_node spot) 1) state.now meter.old n state.now meter.new) }
{
    if spot.has_part(1) {
        run_test(state, spot, meter)
    } else {
        for_tested(state, spot, &Value::Bool(true), meter)
    }
}

// The test of a `for` that has one.
fn run_test(state: &State, spot: Spot, meter: &mut Meter) -> Result<Next, OutOfMemory>
    requires kind { kind_of (spot_node spot) ≡ Kind.For }
    requires test { is_some (and_child (spot_node spot) 1) ≡ true }
    ensures { IfOk result (λ n.
        Leads (spec.for_loop (calls_at meter.old.depth) (here_of spot) (spot_node spot))
        (weigh (spot_node spot) 1) state.now meter.old n state.now meter.new) }
{
    let number = spot.part(1);
    match plain(state, &spot, number)? {
        Some(value) => for_tested(state, spot, &value, meter),
        None => await_statement(state.alloc(), spot, 1, None, number),
    }
}

/// What stands last in the header of a `for`, and the loop again.
pub(crate) fn for_again(state: &State, spot: Spot, meter: &mut Meter) -> Result<Next, OutOfMemory>
    requires { kind_of (spot_node spot) ≡ Kind.For }
    ensures { IfOk result (λ n.
        Leads (spec.for_again (calls_at meter.old.depth) (here_of spot) (spot_node spot))
        (weigh (spot_node spot) 1 + weigh (spot_node spot) 1) state.now meter.old n state.now
        meter.new) }
{
    if spot.has_part(2) {
        run_statement(state, spot, 2, None, 2, meter)
    } else {
        for_test(state, spot, meter)
    }
}

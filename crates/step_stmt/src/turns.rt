//! A turn of a loop: its step, and then its body (ECMA-262 5.1 section 12.6).

ghost use Rattle.std.specs.Prelude.{IfOk};
ghost use Rattle.page_meaning.specs.Act.{Act};
ghost use Rattle.page_meaning.specs.Loops.{turn as spec_turn, turn_if};
ghost use Rattle.page_frames.specs.Step.{Leads};
ghost use Rattle.step_stmt.specs.Turns.{GoesOnAs, IsPaid, body_of};

use js_core::OutOfMemory;
use js_values::Value;
use page_frames::{Meter, Next, Spot};
use page_meaning::Signal;
use page_state::State;
use step_parts::{run_statement, take_step};
use whole_ops::is_true;

/// Takes a step, and runs the part of this number; the frame goes on from its end with this turn.
pub(crate) fn take_turn(
    state: &State,
    spot: Spot,
    turn: u64,
    body: u64,
    meter: &mut Meter,
) -> Result<Next, OutOfMemory>
    requires { IsPaid spot turn body }
    ensures { (next : Act) → GoesOnAs spot turn meter.old.depth next → IfOk result (λ n.
        Leads (spec_turn (body_of spot meter.old.depth body) next) 0 state.now meter.old n state.now
        meter.new) }
{
    if meter.steps == 0 {
        return Ok(Next::Stopped);
    }
    take_step(meter);
    run_statement(state, spot, turn, None, body, meter)
}

/// The same where the value of the test is true; else the loop ends.
pub(crate) fn turn_when(
    state: &State,
    spot: Spot,
    turn: u64,
    body: u64,
    value: &Value,
    meter: &mut Meter,
) -> Result<Next, OutOfMemory>
    requires { IsPaid spot turn body }
    ensures { (next : Act) → GoesOnAs spot turn meter.old.depth next → IfOk result (λ n.
        Leads (turn_if (body_of spot meter.old.depth body) next value.now) 0 state.now meter.old n
        state.now meter.new) }
{
    if is_true(value) {
        take_turn(state, spot, turn, body, meter)
    } else {
        Ok(Next::Give(Signal::Value(Value::Undefined)))
    }
}

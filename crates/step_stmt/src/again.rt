//! Loops with a test go on from the end of what they wait for (ECMA-262 5.1 sections 12.6.1 to 12.6.3).

ghost use Rattle.std.specs.Prelude.{◌≡◌, ◌+◌, IfOk};
ghost use Rattle.code_table.specs.Kind.{kind_of};
ghost use Rattle.page_meaning.specs.Calls.{calls_at};
ghost use Rattle.page_meaning.specs.Loops.{turned};
ghost use Rattle.page_frames.specs.RestLoops as spec;
ghost use Rattle.page_frames.specs.Step.{Leads};
ghost use Rattle.page_frames.specs.Weight.{weigh, weigh_signal};
ghost use Rattle.page_frames.specs.Where.{here_of, spot_node};

use crate::ends::loop_end;
use crate::loops::{
    do_again, do_tested, for_again, for_test, for_tested, while_again, while_tested,
};
use code_table::Kind;
use js_core::OutOfMemory;
use page_frames::{Meter, Next, Spot};
use page_meaning::Signal;
use page_state::State;

/// A `while` after its test, or after its body (section 12.6.2).
pub(crate) fn go_while(
    state: &State,
    spot: Spot,
    turn: u64,
    end: Signal,
    meter: &mut Meter,
) -> Result<Next, OutOfMemory>
    requires { kind_of (spot_node spot) ≡ Kind.While }
    ensures { IfOk result (λ n.
        Leads (spec.rest_while (calls_at meter.old.depth) (here_of spot) (spot_node spot) turn end)
        (weigh_signal (spot_node spot) Kind.While turn) state.now meter.old n state.now meter.new) }
{
    if turn == 0 {
        match end {
            Signal::Value(value) => while_tested(state, spot, &value, meter),
            other => Ok(Next::Give(other)),
        }
    } else {
        match loop_end(end) {
            None => while_again(state, spot, meter),
            Some(last) => Ok(Next::Give(last)),
        }
    }
}

/// A `do` after its body, or after its test (section 12.6.1).
pub(crate) fn go_do(
    state: &State,
    spot: Spot,
    turn: u64,
    end: Signal,
    meter: &mut Meter,
) -> Result<Next, OutOfMemory>
    requires { kind_of (spot_node spot) ≡ Kind.Do }
    ensures { IfOk result (λ n.
        Leads (spec.rest_do (calls_at meter.old.depth) (here_of spot) (spot_node spot) turn end)
        (weigh_signal (spot_node spot) Kind.Do turn) state.now meter.old n state.now meter.new) }
{
    if turn == 0 {
        match loop_end(end) {
            None => do_again(state, spot, meter),
            Some(last) => Ok(Next::Give(last)),
        }
    } else {
        match end {
            Signal::Value(value) => do_tested(state, spot, &value, meter),
            other => Ok(Next::Give(other)),
        }
    }
}

/// A `for` after a part of its header, or after its body (section 12.6.3).
pub(crate) fn go_for(
    state: &State,
    spot: Spot,
    turn: u64,
    end: Signal,
    meter: &mut Meter,
) -> Result<Next, OutOfMemory>
    requires { kind_of (spot_node spot) ≡ Kind.For }
    ensures { IfOk result (λ n.
        Leads (spec.rest_for (calls_at meter.old.depth) (here_of spot) (spot_node spot) turn end)
        (weigh_signal (spot_node spot) Kind.For turn) state.now meter.old n state.now meter.new) }
{
    if turn > 2 {
        for_ended(state, spot, end, meter)
    } else if turn == 1 {
        match end {
            Signal::Value(value) => for_tested(state, spot, &value, meter),
            other => Ok(Next::Give(other)),
        }
    } else {
        match end {
            Signal::Value(_) => for_test(state, spot, meter),
            other => Ok(Next::Give(other)),
        }
    }
}

// A `for` after its body.
fn for_ended(state: &State, spot: Spot, end: Signal, meter: &mut Meter) -> Result<Next, OutOfMemory>
    requires { kind_of (spot_node spot) ≡ Kind.For }
    ensures { IfOk result (λ n.
        Leads (turned (spec.for_again (calls_at meter.old.depth) (here_of spot) (spot_node spot))
        end)
        (weigh (spot_node spot) 1 + weigh (spot_node spot) 1) state.now meter.old n state.now
        meter.new) }
{
    match loop_end(end) {
        None => for_again(state, spot, meter),
        Some(last) => Ok(Next::Give(last)),
    }
}

//! The arguments of a call, from the left (ECMA-262 5.1 section 11.2.4).

ghost use Rattle.std.specs.Prelude.{◌≡◌, ◌≤◌, ◌∷◌, [], IfOk, length};
ghost use Rattle.code_table.specs.Kind.{kind_of};
ghost use Rattle.page_meaning.specs.Calls.{calls_at};
ghost use Rattle.page_frames.specs.RestCalls.{args_from, one_more_arg};
ghost use Rattle.page_frames.specs.Step.{Leads};
ghost use Rattle.page_frames.specs.Weight.{weigh, weigh_value};
ghost use Rattle.page_frames.specs.Where.{here_of, spot_node};
ghost use Rattle.step_parts.specs.Families.{family_of};
ghost use Rattle.step_call.specs.Arguments.{arg_part, is_new as spec_new};

use code_table::Kind;
use js_core::OutOfMemory;
use js_values::Value;
use object_heap::Values;
use page_frames::{Begin, BoxedCall, CallFrame, Meter, Next, Spot};
use page_state::State;
use step_parts::{Family, run_part};

// The part that is the next argument.
fn argument_part(spot: &Spot, got: &Values) -> u64
    requires { 2 ≤ length got.now }
    ensures { result ≡ arg_part (kind_of (spot_node spot.now)) got.now }
{
    let count = got.len() as u64;
    match spot.kind() {
        Kind::CallIndex => count,
        _ => count - 1,
    }
}

fn is_new(kind: &Kind) -> bool
    ensures { result ≡ spec_new kind.now }
{
    matches!(kind, Kind::New)
}

// A call by what was got: `this`, the callee and the arguments.
fn call_of(construct: bool, got: Values) -> CallFrame
    requires { 2 ≤ length got }
    ensures construct { result.construct ≡ construct }
    ensures got { got ≡ result.this ∷ result.callee ∷ result.args }
{
    let mut values = got.into_vec();
    let this = values.remove(0);
    let callee = values.remove(0);
    CallFrame {
        construct,
        callee,
        this,
        args: Values::of(values),
    }
}

/// With `this`, the callee and the arguments that there are so far: the next argument runs, or the call begins where there is none.
pub(crate) fn next_argument(
    state: &State,
    spot: Spot,
    turn: u64,
    got: Values,
    meter: &Meter,
) -> Result<Next, OutOfMemory>
    requires family { family_of (kind_of (spot_node spot)) ≡ Family.Call }
    requires got { 2 ≤ length got }
    ensures { IfOk result (λ n.
        Leads (args_from (calls_at meter.now.depth) (here_of spot) (spot_node spot) got)
        (weigh (spot_node spot) (arg_part (kind_of (spot_node spot)) got)) state.now meter.now n
        state.now meter.now) }
{
    let part = argument_part(&spot, &got);
    if spot.has_part(part) {
        run_part(state, spot, turn, got, part, meter)
    } else {
        let construct = is_new(spot.kind());
        let call = BoxedCall::of(state.alloc(), call_of(construct, got))?;
        Ok(Next::Enter(Begin::Call(call)))
    }
}

/// One more argument, and then the next.
pub(crate) fn one_more(
    state: &State,
    spot: Spot,
    turn: u64,
    got: Values,
    value: Value,
    meter: &Meter,
) -> Result<Next, OutOfMemory>
    requires family { family_of (kind_of (spot_node spot)) ≡ Family.Call }
    requires got { 1 ≤ length got }
    ensures { IfOk result (λ n.
        Leads (one_more_arg (calls_at meter.now.depth) (here_of spot) (spot_node spot) got value)
        (weigh_value (spot_node spot) (kind_of (spot_node spot)) turn got) state.now meter.now n
        state.now meter.now) }
{
    let mut got = got;
    got.push(value)?;
    next_argument(state, spot, turn, got, meter)
}

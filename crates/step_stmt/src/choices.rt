//! `if`, and what stands last in a `try` (ECMA-262 5.1 sections 12.5 and 12.14).

ghost use Rattle.std.specs.Prelude.{◌≡◌, IfOk, Some, suc};
ghost use Rattle.code_table.specs.Kind.{kind_of};
ghost use Rattle.page_meaning.specs.declared.signal.Signal.TheVariants.{Thrown};
ghost use Rattle.page_meaning.specs.Act.{bind};
ghost use Rattle.page_meaning.specs.Calls.{calls_at};
ghost use Rattle.page_frames.specs.RestStatements as spec;
ghost use Rattle.page_frames.specs.Step.{Leads};
ghost use Rattle.page_frames.specs.Weight.{weigh};
ghost use Rattle.page_frames.specs.Where.{here_of, spot_node};

use code_table::Kind;
use js_core::{OutOfMemory, Units};
use js_values::Value;
use page_frames::{Begin, BoxedFrame, Frame, Meter, Next, Spot, StmtFrame};
use page_meaning::Signal;
use page_state::State;
use step_parts::{enter_part, run_statement};
use whole_ops::is_true;

/// An `if` after its test: what is chosen runs in its place.
pub(crate) fn if_tested(
    state: &State,
    spot: &Spot,
    value: &Value,
    meter: &Meter,
) -> Result<Next, OutOfMemory>
    ensures { IfOk result (λ n.
        Leads (spec.rest_if (calls_at meter.now.depth) (here_of spot.now) (spot_node spot.now)
        value.now) (weigh (spot_node spot.now) 1) state.now meter.now n state.now meter.now) }
{
    if is_true(value) {
        enter_part(state, spot, 1, meter)
    } else {
        enter_part(state, spot, 2, meter)
    }
}

/// The `finally` of a `try`, where there is one; it keeps the end that it may give back.
pub(crate) fn run_last(
    state: &State,
    spot: Spot,
    name: &Option<Units>,
    end: Signal,
    meter: &Meter,
) -> Result<Next, OutOfMemory>
    requires { kind_of (spot_node spot) ≡ Kind.Try name.now }
    ensures { IfOk result (λ n.
        Leads (spec.rest_last (calls_at meter.now.depth) (here_of spot) (spot_node spot) end)
        (weigh (spot_node spot) 2) state.now meter.now n state.now meter.now) }
{
    if spot.has_part(2) {
        run_statement(state, spot, 2, Some(end), 2, meter)
    } else {
        Ok(Next::Give(end))
    }
}

/// What a `try` gives once its `finally` has ended: the end that it kept, unless the `finally` ends otherwise.
pub(crate) fn given_back(kept: Option<Signal>, end: Signal) -> Signal
    ensures { result ≡ spec.given_back kept end }
{
    match kept {
        None => end,
        Some(before) => match end {
            Signal::Value(_) => before,
            other => other,
        },
    }
}

/// A `try` after its block: the clause runs with the exception in an environment of its own, or what stands last runs.
pub(crate) fn try_blocked(
    state: &mut State,
    spot: Spot,
    name: &Option<Units>,
    end: Signal,
    meter: &Meter,
) -> Result<Next, OutOfMemory>
    requires { kind_of (spot_node spot) ≡ Kind.Try name.now }
    ensures { IfOk result (λ n.
        Leads (bind (spec.rest_clause (calls_at meter.now.depth) (here_of spot) (spot_node spot)
        name.now end) (spec.rest_last (calls_at meter.now.depth) (here_of spot) (spot_node spot)))
        (weigh (spot_node spot) 1) state.old meter.now n state.new meter.now) }
{
    match name {
        None => run_last(state, spot, name, end, meter),
        Some(bound) => match end {
            Signal::Thrown(value) => run_clause(state, spot, bound, value, meter),
            other => run_last(state, spot, name, other, meter),
        },
    }
}

// The clause runs with the exception in an environment of its own.
fn run_clause(
    state: &mut State,
    spot: Spot,
    name: &Units,
    value: Value,
    meter: &Meter,
) -> Result<Next, OutOfMemory>
    requires { kind_of (spot_node spot) ≡ Kind.Try (Some name.now) }
    ensures { IfOk result (λ n.
        Leads (bind (spec.rest_clause (calls_at meter.now.depth) (here_of spot) (spot_node spot)
        (Some name.now) (Thrown value)) (spec.rest_last (calls_at meter.now.depth) (here_of spot)
        (spot_node spot)))
        (weigh (spot_node spot) 1) state.old meter.now n state.new meter.now) }
{
    let alloc = state.alloc();
    let mut names = Vec::new(alloc);
    names.push((name.clone()?, value))?;
    let env = state.make_environment(spot.env(), names)?;
    let number = spot.part(1);
    let clause = spot.within(alloc, env, number)?;
    let frame = Frame::Stmt(StmtFrame {
        spot,
        turn: 1,
        kept: None,
    });
    let boxed = BoxedFrame::of(alloc, frame)?;
    Ok(Next::Then(boxed, Begin::Node(clause)))
}

/// A `try` after its block, its clause or its `finally` (section 12.14).
pub(crate) fn go_try(
    state: &mut State,
    spot: Spot,
    name: &Option<Units>,
    turn: u64,
    kept: Option<Signal>,
    end: Signal,
    meter: &Meter,
) -> Result<Next, OutOfMemory>
    requires { kind_of (spot_node spot) ≡ Kind.Try name.now }
    ensures { IfOk result (λ n.
        Leads (spec.rest_try (calls_at meter.now.depth) (here_of spot) (spot_node spot) name.now
        turn kept end)
        (weigh (spot_node spot) (suc turn)) state.old meter.now n state.new meter.now) }
{
    if turn == 0 {
        try_blocked(state, spot, name, end, meter)
    } else if turn == 1 {
        run_last(state, spot, name, end, meter)
    } else {
        Ok(Next::Give(given_back(kept, end)))
    }
}

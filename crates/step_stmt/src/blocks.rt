//! Statements in turn, and names that a `var` declares (ECMA-262 5.1 sections 12.1 and 12.2).

ghost use Rattle.std.specs.Prelude.{◌≡◌, IfOk, None, suc};
ghost use Rattle.code_table.specs.Kind.{kind_of};
ghost use Rattle.page_meaning.specs.Calls.{calls_at};
ghost use Rattle.page_frames.specs.RestStatements as spec;
ghost use Rattle.page_frames.specs.Step.{Leads};
ghost use Rattle.page_frames.specs.Weight.{weigh};
ghost use Rattle.page_frames.specs.Where.{here_of, spot_node};
ghost use Rattle.step_parts.specs.Running.{Awaits};

use crate::ends::nothing;
use code_table::Kind;
use js_core::OutOfMemory;
use page_frames::{Meter, Next, Spot};
use page_state::State;
use step_parts::{await_statement, run_statement};

/// The statements of a block from the kth on (section 12.1).
pub(crate) fn block_from(
    state: &State,
    spot: Spot,
    k: u64,
    meter: &Meter,
) -> Result<Next, OutOfMemory>
    requires { kind_of (spot_node spot) ≡ Kind.Block }
    ensures { IfOk result (λ n.
        Leads (spec.stmts_from (calls_at meter.now.depth) (here_of spot) (spot_node spot) k)
        (weigh (spot_node spot) k) state.now meter.now n state.now meter.now) }
{
    if k < spot.part_count() as u64 {
        run_nth(state, spot, k, meter)
    } else {
        Ok(nothing())
    }
}

// The kth statement of a block runs. The block looks at no value, so that nothing else waits for that of an expression.
fn run_nth(state: &State, spot: Spot, k: u64, meter: &Meter) -> Result<Next, OutOfMemory>
    requires { kind_of (spot_node spot) ≡ Kind.Block }
    ensures { IfOk result (λ n. Awaits spot k None k state.now meter.now n) }
{
    let number = spot.part(k);
    match spot.kind_at(number) {
        Kind::Discard => {
            let statement = spot.at(number)?;
            let expression = statement.part(0);
            await_statement(state.alloc(), spot, k, None, expression)
        }
        _ => await_statement(state.alloc(), spot, k, None, number),
    }
}

/// The statements of a block after the kth.
pub(crate) fn block_after(
    state: &State,
    spot: Spot,
    k: u64,
    meter: &Meter,
) -> Result<Next, OutOfMemory>
    requires { kind_of (spot_node spot) ≡ Kind.Block }
    ensures { IfOk result (λ n.
        Leads (spec.stmts_from (calls_at meter.now.depth) (here_of spot) (spot_node spot) (suc k))
        (weigh (spot_node spot) (suc k)) state.now meter.now n state.now meter.now) }
{
    if k < spot.part_count() as u64 {
        block_from(state, spot, k + 1, meter)
    } else {
        Ok(nothing())
    }
}

/// The names that a `var` declares with an initialiser, from the kth on (section 12.2).
pub(crate) fn names_from(
    state: &State,
    spot: Spot,
    k: u64,
    meter: &Meter,
) -> Result<Next, OutOfMemory>
    requires { kind_of (spot_node spot) ≡ Kind.Var }
    ensures { IfOk result (λ n.
        Leads (spec.declarators_from (calls_at meter.now.depth) (here_of spot) (spot_node spot) k)
        (weigh (spot_node spot) k) state.now meter.now n state.now meter.now) }
{
    if k < spot.part_count() as u64 {
        run_statement(state, spot, k, None, k, meter)
    } else {
        Ok(nothing())
    }
}

/// The names that a `var` declares with an initialiser, after the kth.
pub(crate) fn names_after(
    state: &State,
    spot: Spot,
    k: u64,
    meter: &Meter,
) -> Result<Next, OutOfMemory>
    requires { kind_of (spot_node spot) ≡ Kind.Var }
    ensures { IfOk result (λ n.
        Leads (spec.declarators_from (calls_at meter.now.depth) (here_of spot) (spot_node spot)
        (suc k)) (weigh (spot_node spot) (suc k)) state.now meter.now n state.now meter.now) }
{
    if k < spot.part_count() as u64 {
        names_from(state, spot, k + 1, meter)
    } else {
        Ok(nothing())
    }
}

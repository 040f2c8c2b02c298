//! Statements by their kind: how one begins, and how one goes on (ECMA-262 5.1 section 12).

ghost use Rattle.std.specs.Prelude.{◌≡◌, IfOk, Option, true};
ghost use Rattle.code_table.specs.Kind.{kind_of};
ghost use Rattle.page_meaning.specs.declared.signal.Signal.{Signal as End};
ghost use Rattle.page_meaning.specs.declared.signal.Signal.TheVariants.{Value as Val};
ghost use Rattle.page_frames.specs.Step.{Opens, Shifts, Steps};
ghost use Rattle.page_frames.specs.Where.{spot_node};
ghost use Rattle.step_parts.specs.Families.{family_of};
ghost use Rattle.step_stmt.specs.Ends.{StartsWith, takes_values};

use crate::again::{go_do, go_for, go_while};
use crate::blocks::{block_after, block_from, names_after, names_from};
use crate::cases::switch_valued;
use crate::choices::{go_try, if_tested};
use crate::each::each_listed;
use crate::ends::nothing;
use crate::loops::{do_begun, while_again};
use code_table::Kind;
use js_core::OutOfMemory;
use js_values::Value;
use page_frames::{Frame, Meter, Next, Spot, StmtFrame};
use page_meaning::Signal;
use page_state::State;
use step_parts::{Family, await_statement, plain, run_statement};

/// A statement begins (section 12).
pub fn begin_statement(
    state: &mut State,
    spot: Spot,
    meter: &mut Meter,
) -> Result<Next, OutOfMemory>
    requires { family_of (kind_of (spot_node spot)) ≡ Family.Statement }
    ensures { IfOk result (λ n. Opens spot state.old meter.old n state.new meter.new) }
{
    match spot.kind() {
        Kind::Empty => Ok(nothing()),
        Kind::Continue => Ok(Next::Give(Signal::Continue)),
        Kind::Break => Ok(Next::Give(Signal::Break)),
        Kind::Var => names_from(state, spot, 0, meter),
        Kind::Block => block_from(state, spot, 0, meter),
        Kind::While => while_again(state, spot, meter),
        Kind::Do => do_begun(state, spot, meter),
        Kind::ForIn => run_statement(state, spot, 1, None, 1, meter),
        Kind::For => run_statement(state, spot, 0, None, 0, meter),
        Kind::Try(_) => run_statement(state, spot, 0, None, 0, meter),
        _ => begin_valued(state, spot, meter),
    }
}

// A statement that begins with an expression goes on at once where that is read at once.
fn begin_valued(state: &mut State, spot: Spot, meter: &mut Meter) -> Result<Next, OutOfMemory>
    requires family { family_of (kind_of (spot_node spot)) ≡ Family.Statement }
    requires values { takes_values (kind_of (spot_node spot)) ≡ true }
    requires starts { StartsWith (kind_of (spot_node spot)) 0 }
    ensures { IfOk result (λ n. Opens spot state.old meter.old n state.new meter.new) }
{
    let number = spot.part(0);
    match plain(state, &spot, number)? {
        Some(value) => go_value(state, spot, 0, value, meter),
        None => await_statement(state.alloc(), spot, 0, None, number),
    }
}

/// A statement goes on from the end of the part that it waits for (section 12).
pub fn go_statement(
    state: &mut State,
    frame: StmtFrame,
    end: Signal,
    meter: &mut Meter,
) -> Result<Next, OutOfMemory>
    ensures { IfOk result (λ n.
        Steps (Frame.Stmt frame) end state.old meter.old n state.new meter.new) }
{
    let StmtFrame { spot, turn, kept } = frame;
    match spot.kind() {
        Kind::While => go_while(state, spot, turn, end, meter),
        Kind::Do => go_do(state, spot, turn, end, meter),
        Kind::For => go_for(state, spot, turn, end, meter),
        Kind::Try(name) => {
            let place = spot.clone()?;
            go_try(state, place, name, turn, kept, end, meter)
        }
        _ => go_other(state, spot, turn, end, meter),
    }
}

// A statement that is no loop with a test and no `try` hands every end on but a value.
fn go_other(
    state: &mut State,
    spot: Spot,
    turn: u64,
    end: Signal,
    meter: &mut Meter,
) -> Result<Next, OutOfMemory>
    requires { takes_values (kind_of (spot_node spot)) ≡ true }
    ensures { (kept : Option End) →
        IfOk result (λ n.
        Shifts spot (kind_of (spot_node spot)) turn kept end state.old meter.old n state.new
        meter.new) }
{
    match end {
        Signal::Value(value) => go_value(state, spot, turn, value, meter),
        other => Ok(Next::Give(other)),
    }
}

// It goes on from a value.
fn go_value(
    state: &mut State,
    spot: Spot,
    turn: u64,
    value: Value,
    meter: &mut Meter,
) -> Result<Next, OutOfMemory>
    requires { takes_values (kind_of (spot_node spot)) ≡ true }
    ensures { (kept : Option End) →
        IfOk result (λ n.
        Shifts spot (kind_of (spot_node spot)) turn kept (Val value) state.old meter.old n state.new
        meter.new) }
{
    match spot.kind() {
        Kind::Var => names_after(state, spot, turn, meter),
        Kind::Discard => Ok(nothing()),
        Kind::Block => block_after(state, spot, turn, meter),
        Kind::If => if_tested(state, &spot, &value, meter),
        Kind::ForIn => each_listed(state, spot, &value, meter),
        Kind::Return => Ok(Next::Give(Signal::Return(value))),
        Kind::Throw => Ok(Next::Give(Signal::Thrown(value))),
        Kind::Switch => switch_valued(state, spot, value, meter),
        _ => Ok(Next::Give(Signal::Value(value))),
    }
}

//! How the parts of a node run. What can be read at once is no frame.

ghost use Rattle.std.specs.Prelude.{◌≡◌, IfOk, ℕ};
ghost use Rattle.code_table.specs.Kind.{kind_of};
ghost use Rattle.code_table.specs.Node.{and_child};
ghost use Rattle.page_meaning.specs.Store.{Store};
ghost use Rattle.page_frames.specs.declared.meter.Meter.{Meter as Metered};
ghost use Rattle.page_frames.specs.Step.{Goes};
ghost use Rattle.page_frames.specs.Where.{numbered, spot_node};
ghost use Rattle.step_parts.specs.Running.{Awaits, AwaitsNode, Enters};

use crate::operands::plain;
use js_core::OutOfMemory;
use object_heap::Values;
use page_frames::{Begin, BoxedFrame, ExprFrame, Frame, Meter, Next, Spot, StmtFrame};
use page_meaning::Signal;
use page_state::State;
use std::alloc::Global;

/// The kth part runs, and then the expression goes on with what it has got.
pub fn run_part(
    state: &State,
    spot: Spot,
    turn: u64,
    got: Values,
    k: u64,
    meter: &Meter,
) -> Result<Next, OutOfMemory>
    ensures { IfOk result (λ next.
        Goes spot (kind_of (spot_node spot)) turn got k state.now meter.now next) }
{
    let number = spot.part(k);
    match plain(state, &spot, number)? {
        Some(value) => {
            let frame = Frame::Expr(ExprFrame { spot, turn, got });
            let boxed = BoxedFrame::of(state.alloc(), frame)?;
            Ok(Next::Go(boxed, Signal::Value(value)))
        }
        None => await_part(state.alloc(), spot, turn, got, number),
    }
}

/// The node of this number begins, and then the expression goes on with what it has got.
pub fn await_part(
    alloc: Global,
    spot: Spot,
    turn: u64,
    got: Values,
    number: u32,
) -> Result<Next, OutOfMemory>
    ensures { (k : ℕ) (w : Store) (m : Metered) →
        spot_node (numbered spot number) ≡ and_child (spot_node spot) k →
        IfOk result (λ next. Goes spot (kind_of (spot_node spot)) turn got k w m next) }
{
    let part = spot.at(number)?;
    let frame = Frame::Expr(ExprFrame { spot, turn, got });
    let boxed = BoxedFrame::of(alloc, frame)?;
    Ok(Next::Then(boxed, Begin::Node(part)))
}

/// The kth part runs, and then the statement goes on from its end.
pub fn run_statement(
    state: &State,
    spot: Spot,
    turn: u64,
    kept: Option<Signal>,
    k: u64,
    meter: &Meter,
) -> Result<Next, OutOfMemory>
    ensures { IfOk result (λ next. Awaits spot turn kept k state.now meter.now next) }
{
    let number = spot.part(k);
    match plain(state, &spot, number)? {
        Some(value) => {
            let frame = Frame::Stmt(StmtFrame { spot, turn, kept });
            let boxed = BoxedFrame::of(state.alloc(), frame)?;
            Ok(Next::Go(boxed, Signal::Value(value)))
        }
        None => await_statement(state.alloc(), spot, turn, kept, number),
    }
}

/// The node of this number begins, and then the statement goes on from its end.
pub fn await_statement(
    alloc: Global,
    spot: Spot,
    turn: u64,
    kept: Option<Signal>,
    number: u32,
) -> Result<Next, OutOfMemory>
    ensures { (w : Store) (m : Metered) → IfOk result (λ next.
        AwaitsNode spot turn kept (spot_node (numbered spot number)) w m next) }
{
    let part = spot.at(number)?;
    let frame = Frame::Stmt(StmtFrame { spot, turn, kept });
    let boxed = BoxedFrame::of(alloc, frame)?;
    Ok(Next::Then(boxed, Begin::Node(part)))
}

/// The kth part runs in the place of what waits for it.
pub fn enter_part(state: &State, spot: &Spot, k: u64, meter: &Meter) -> Result<Next, OutOfMemory>
    ensures { IfOk result (λ next. Enters spot.now k state.now meter.now next) }
{
    let number = spot.part(k);
    match plain(state, spot, number)? {
        Some(value) => Ok(Next::Give(Signal::Value(value))),
        None => Ok(Next::Enter(Begin::Node(spot.at(number)?))),
    }
}

//! A step of what begins, and of a frame that goes on, by the family of its node.

ghost use Rattle.std.specs.Prelude.{◌≡◌, ◌<◌, ◌^◌, IfOk, true};
ghost use Rattle.page_frames.specs.Step.{Begins, Moves, Opens, Steps, depth_after};
ghost use Rattle.code_table.specs.Kind.{kind_of};
ghost use Rattle.page_frames.specs.Where.{spot_node};
ghost use Rattle.step_parts.specs.Families.{family_of};
ghost use Rattle.step_expr.specs.Begins.{begins_first};

use event_dispatch::{begin_deliver, go_deliver};
use js_core::OutOfMemory;
use js_values::Value;
use object_heap::Values;
use page_frames::{Begin, BoxedFrame, ExprFrame, Frame, Meter, Next, Spot};
use page_meaning::Signal;
use page_state::State;
use step_assign::{begin_named, begin_target, go_change, go_name, go_target};
use step_call::{begin_call, go_call, go_called};
use step_expr::{begin_first, begin_plain, begin_sequence, go_operator, go_property, go_sequence};
use step_parts::{Family, plain};
use step_stmt::{begin_statement, go_case, go_each, go_statement};
use step_visit::go_visit;

/// A step of what begins.
pub(crate) fn begin(state: &mut State, what: Begin, meter: &mut Meter) -> Result<Next, OutOfMemory>
    ensures { IfOk result (λ n. Begins what state.old meter.old n state.new meter.new) }
{
    match what {
        Begin::Node(spot) => begin_node(state, spot, meter),
        Begin::Target(spot, value) => begin_target(state, spot, value, meter),
        Begin::Call(call) => begin_call(state, call.into_call(), meter),
        Begin::Deliver(event, node) => begin_deliver(state, event, node, meter),
    }
}

// A node begins.
fn begin_node(state: &mut State, spot: Spot, meter: &mut Meter) -> Result<Next, OutOfMemory>
    ensures { IfOk result (λ n. Opens spot state.old meter.old n state.new meter.new) }
{
    match Family::of(spot.kind()) {
        Family::Plain => begin_plain(state, &spot, meter),
        Family::Sequence => begin_sequence(state, spot, meter),
        Family::Named => begin_named(state, spot, meter),
        Family::Statement => begin_statement(state, spot, meter),
        Family::Operator | Family::Property | Family::Change | Family::Call => {
            begin_with_part(state, spot, meter)
        }
    }
}

// What begins with its first part goes on at once from one that is read at once.
fn begin_with_part(state: &mut State, spot: Spot, meter: &Meter) -> Result<Next, OutOfMemory>
    requires { begins_first (family_of (kind_of (spot_node spot))) ≡ true }
    ensures { IfOk result (λ n. Opens spot state.old meter.now n state.new meter.now) }
{
    let number = spot.part(0);
    match plain(state, &spot, number)? {
        Some(value) => {
            let got = Values::new(state.alloc());
            go_value(state, ExprFrame { spot, turn: 0, got }, value, meter)
        }
        None => begin_first(state, spot, meter),
    }
}

/// A step of a frame, from the end of what it waits for.
pub(crate) fn go(
    state: &mut State,
    frame: BoxedFrame,
    end: Signal,
    meter: &mut Meter,
) -> Result<Next, OutOfMemory>
    requires { depth_after frame meter.old.depth < 2 ^ 32 }
    ensures { IfOk result (λ n. Steps frame end state.old meter.old n state.new meter.new) }
{
    match frame.into_frame() {
        Frame::Expr(frame) => go_expression(state, frame, end, meter),
        Frame::Name(frame) => go_name(state, frame, end, meter),
        Frame::Target(frame) => go_target(state, frame, end, meter),
        Frame::Stmt(frame) => go_statement(state, frame, end, meter),
        Frame::Each(frame) => go_each(state, frame, end, meter),
        Frame::Case(frame) => go_case(state, frame, end, meter),
        Frame::Called(frame) => go_called(state, frame, end, meter),
        Frame::Visit(frame) => go_visit(state, frame, end, meter),
        Frame::Deliver(frame) => go_deliver(state, frame, end, meter),
    }
}

// An expression goes on with a value, and hands any other end on.
fn go_expression(
    state: &mut State,
    frame: ExprFrame,
    end: Signal,
    meter: &Meter,
) -> Result<Next, OutOfMemory>
    ensures { IfOk result (λ n.
        Steps (Frame.Expr frame) end state.old meter.now n state.new meter.now) }
{
    match end {
        Signal::Value(value) => go_value(state, frame, value, meter),
        other => Ok(Next::Give(other)),
    }
}

// An expression goes on with a value.
fn go_value(
    state: &mut State,
    frame: ExprFrame,
    value: Value,
    meter: &Meter,
) -> Result<Next, OutOfMemory>
    ensures { IfOk result (λ n.
        Moves frame.spot (kind_of (spot_node frame.spot)) frame.turn frame.got value state.old
        meter.now n state.new) }
{
    let ExprFrame { spot, turn, got } = frame;
    match Family::of(spot.kind()) {
        Family::Operator => go_operator(state, spot, turn, got, value, meter),
        Family::Property => go_property(state, spot, turn, got, value, meter),
        Family::Change => go_change(state, spot, turn, got, value, meter),
        Family::Call => go_call(state, spot, turn, got, value, meter),
        Family::Sequence => go_sequence(state, spot, turn, got, value, meter),
        Family::Plain | Family::Named | Family::Statement => Ok(Next::Give(Signal::Value(value))),
    }
}

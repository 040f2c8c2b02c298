//! A dispatch begins, and goes on from the end of a listener.

ghost use Rattle.std.specs.Prelude.{◌≡◌, ◌≢◌, ◌∷◌, ◌*◌, ◌^◌, [], IfNone, IfOk, IfSome, length};
ghost use Rattle.page_meaning.specs.Dispatch as spec;
ghost use Rattle.page_frames.specs.Step.{Begins, Lowers, Steps};
ghost use Rattle.page_frames.specs.Weight.{heavy, many};
ghost use Rattle.page_state.specs.Finding.{event_of as spec_event};
ghost use Rattle.event_dispatch.specs.Turning.{BeginsBelow, Turns, deliver_value, left_at, next_at, registered_from, weigh_left};

use js_core::OutOfMemory;
use js_values::{NodeId, ObjId, Throw, Value};
use object_heap::Values;
use page_frames::{
    Begin, BoxedCall, BoxedFrame, CallFrame, CalledFrame, DeliverFrame, Frame, Meter, Next, Places,
    Round,
};
use page_host::{Listener, Place};
use page_meaning::Signal;
use page_state::{State, argument};
use std::alloc::Global;
use step_parts::give;

/// `dispatchEvent`: the event is dispatched one level of depth down. Anything but a node with an event is a wrong argument.
pub fn begin_row(
    state: &mut State,
    this: &Value,
    args: &[Value],
    meter: &mut Meter,
) -> Result<Next, OutOfMemory>
    requires { meter.old.depth ≢ 0 }
    ensures { IfOk result (λ n.
        Lowers heavy (λ calls. spec.dispatch_row calls this.now args.now) state.old meter.old n
        state.new meter.new) }
{
    match state.node_of(this) {
        Some(node) => {
            let value = argument(args, 0)?;
            begin_on(state, node, &value, meter)
        }
        None => {
            let fault = state.raise(Throw::WrongArgument);
            give(Err(fault))
        }
    }
}

// What is dispatched must be an event.
fn begin_on(
    state: &mut State,
    node: NodeId,
    value: &Value,
    meter: &mut Meter,
) -> Result<Next, OutOfMemory>
    requires { meter.old.depth ≢ 0 }
    ensures { IfOk result (λ n.
        Lowers heavy (deliver_value node value.now) state.old meter.old n state.new meter.new) }
{
    match event_of(state, value) {
        Some(event) => begin_below(state.alloc(), event, node, meter),
        None => {
            let fault = state.raise(Throw::WrongArgument);
            give(Err(fault))
        }
    }
}

// The dispatch begins one level of depth down, which is given back at its end.
fn begin_below(
    alloc: Global,
    event: ObjId,
    node: NodeId,
    meter: &mut Meter,
) -> Result<Next, OutOfMemory>
    requires { meter.old.depth ≢ 0 }
    ensures { IfOk result (λ n. BeginsBelow event node meter.old n meter.new) }
{
    let called = CalledFrame {
        body: false,
        fresh: None,
    };
    let frame = BoxedFrame::of(alloc, Frame::Called(called))?;
    meter.depth -= 1;
    Ok(Next::Then(frame, Begin::Deliver(event, node)))
}

// The event that a value is.
fn event_of(state: &State, value: &Value) -> Option<ObjId>
    ensures { result ≡ spec_event state.now value.now }
{
    match value {
        Value::Object(at) => match state.event_parts(*at) {
            Some(_) => Some(*at),
            None => None,
        },
        Value::Undefined | Value::Null | Value::Bool(_) | Value::Num(_) | Value::Text(_) => None,
    }
}

/// The event is dispatched at the node, once: one that was not initialised, or was sent, throws.
pub fn begin_deliver(
    state: &mut State,
    event: ObjId,
    node: NodeId,
    meter: &Meter,
) -> Result<Next, OutOfMemory>
    ensures { IfOk result (λ n.
        Begins (Begin.Deliver event node) state.old meter.now n state.new meter.now) }
{
    if state.may_begin(event) {
        dispatch(state, event, node)
    } else {
        let fault = state.raise(Throw::UnspecifiedEventType);
        give(Err(fault))
    }
}

// The way is fixed before the first listener runs.
fn dispatch(state: &mut State, event: ObjId, node: NodeId) -> Result<Next, OutOfMemory>
    ensures { IfOk result (λ n.
        Turns (2 ^ 129) (λ calls.
        spec.dispatch calls event node (spec.parts_at state.old event).bubbles) state.old n
        state.new) }
{
    let bubbles = bubbles(state, event);
    state.begin_dispatch(event, node)?;
    let later = Places::of(state.path(node, bubbles)?);
    visit_places(state, event, later)
}

// Whether the event bubbles.
fn bubbles(state: &State, event: ObjId) -> bool
    ensures { result ≡ (spec.parts_at state.now event).bubbles }
{
    match state.event_parts(event) {
        Some(parts) => parts.bubbles,
        None => false,
    }
}

/// A dispatch goes on from the end of a listener; what that threw is put out.
pub fn go_deliver(
    state: &mut State,
    frame: DeliverFrame,
    end: Signal,
    meter: &Meter,
) -> Result<Next, OutOfMemory>
    ensures { IfOk result (λ n.
        Steps (Frame.Deliver frame) end state.old meter.now n state.new meter.now) }
{
    state.put_uncaught(&end)?;
    let DeliverFrame {
        event,
        place,
        round,
        later,
    } = frame;
    go_on(state, event, place, round, later)
}

// The listeners that are left at a place, and then the places after it.
fn go_on(
    state: &mut State,
    event: ObjId,
    place: Place,
    round: Round,
    later: Places,
) -> Result<Next, OutOfMemory>
    ensures { IfOk result (λ n.
        Turns (weigh_left round later) (left_at event place round later) state.old n state.new) }
{
    let mut round = round;
    match next_listener(state, &mut round) {
        Some(listener) => call(state, event, place, round, later, &listener),
        None => visit_places(state, event, later),
    }
}

// Place by place, until a listener runs or propagation was stopped.
fn visit_places(state: &mut State, event: ObjId, later: Places) -> Result<Next, OutOfMemory>
    ensures { IfOk result (λ n.
        Turns (length later * many) (λ calls. spec.visit_places calls event later) state.old n
        state.new) }
{
    let mut later = later;
    while let Some(place) = later.pop() {
        if state.is_stopped(event) {
            return end(state, event);
        }
        state.arrive(event, place)?;
        let mut round = Round::of(state.round(event, place)?);
        if let Some(listener) = next_listener(state, &mut round) {
            return call(state, event, place, round, later, &listener);
        }
    }
    end(state, event)
}

// The next listener that is still registered.
fn next_listener(state: &State, round: &mut Round) -> Option<Listener>
    ensures some { IfSome result (λ l. registered_from state.now round.old ≡ l ∷ round.new) }
    ensures none { IfNone result (registered_from state.now round.old ≡ []) }
{
    while let Some(listener) = round.pop() {
        if state.is_registered(&listener) {
            return Some(listener);
        }
    }
    None
}

// The listener is called with the event, and the dispatch waits.
fn call(
    state: &State,
    event: ObjId,
    place: Place,
    round: Round,
    later: Places,
    listener: &Listener,
) -> Result<Next, OutOfMemory>
    ensures { IfOk result (λ n.
        Turns (weigh_left (listener.now ∷ round) later)
        (next_at event place listener.now round later) state.now n state.now) }
{
    let mut args = Values::new(state.alloc());
    args.push(Value::Object(event))?;
    let call = CallFrame {
        construct: false,
        callee: Value::Object(listener.call),
        this: Value::Object(state.host().object_of(place.node)),
        args,
    };
    let call = BoxedCall::of(state.alloc(), call)?;
    let frame = DeliverFrame {
        event,
        place,
        round,
        later,
    };
    let frame = BoxedFrame::of(state.alloc(), Frame::Deliver(frame))?;
    Ok(Next::Then(frame, Begin::Call(call)))
}

// The end of a dispatch gives whether no default was prevented.
fn end(state: &mut State, event: ObjId) -> Result<Next, OutOfMemory>
    ensures { IfOk result (λ n. Turns 0 (λ _. spec.ended event) state.old n state.new) }
{
    let prevented = state.is_prevented(event);
    state.rest_event(event);
    Ok(Next::Give(Signal::Value(Value::Bool(!prevented))))
}

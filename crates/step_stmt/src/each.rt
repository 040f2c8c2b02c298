//! A loop over names: a turn for each that its object still has (ECMA-262 5.1 section 12.6.4).

ghost use Rattle.std.specs.Prelude.{◌≡◌, ◌+◌, IfOk, drop, slice_get, suc};
ghost use Rattle.code_table.specs.Node.{and_child};
ghost use Rattle.page_meaning.specs.Act.{bind};
ghost use Rattle.page_meaning.specs.Calls.{calls_at};
ghost use Rattle.page_meaning.specs.Loops.{turned};
ghost use Rattle.page_meaning.specs.Store.{Store};
ghost use Rattle.page_frames.specs.Parts.{part};
ghost use Rattle.page_frames.specs.RestLoops as spec;
ghost use Rattle.page_frames.specs.Step.{Leads, Steps};
ghost use Rattle.page_frames.specs.Weight.{cost, weigh};
ghost use Rattle.page_frames.specs.Where.{here_of, spot_node};
ghost use Rattle.step_stmt.specs.Visits.{visit};

use crate::ends::{loop_end, nothing};
use js_core::{OutOfMemory, Units};
use js_values::{ObjId, Value};
use page_frames::{Begin, BoxedFrame, EachFrame, Frame, Listed, Meter, Next, Spot};
use page_meaning::Signal;
use page_state::State;
use std::alloc::Global;
use step_parts::take_step;

/// A for-in over this value: its names are listed, and there is a turn for each (section 12.6.4).
pub(crate) fn each_listed(
    state: &State,
    spot: Spot,
    value: &Value,
    meter: &mut Meter,
) -> Result<Next, OutOfMemory>
    ensures { IfOk result (λ n.
        Leads (spec.rest_for_in (calls_at meter.old.depth) (here_of spot) (spot_node spot)
        value.now)
        0 state.now meter.old n state.now meter.new) }
{
    let names = Listed::of(state.listed_of(value)?);
    each_from(state, spot, names, 0, meter)
}

// A turn for each name from this index on.
fn each_from(
    state: &State,
    spot: Spot,
    names: Listed,
    index: u64,
    meter: &mut Meter,
) -> Result<Next, OutOfMemory>
    ensures { IfOk result (λ n.
        Leads (spec.each_of (calls_at meter.old.depth) (here_of spot) (spot_node spot)
        (drop index names))
        0 state.now meter.old n state.now meter.new) }
{
    spot.is_small();
    match name_at(&names, index)? {
        None => Ok(nothing()),
        Some((holder, name)) => {
            if meter.steps == 0 {
                return Ok(Next::Stopped);
            }
            take_step(meter);
            each_name(state, spot, names, index, holder, name, meter)
        }
    }
}

// The name of this index, with its holder.
fn name_at(names: &Listed, index: u64) -> Result<Option<(Option<ObjId>, Units)>, OutOfMemory>
    ensures { IfOk result (λ o. o ≡ slice_get names.now index) }
{
    match names.as_slice().get(index as usize) {
        Some(item) => Ok(Some((item.0, item.1.clone()?))),
        None => Ok(None),
    }
}

// The name of this index, after its step: the target takes it where its holder still has it, and the loop goes on at once where not.
fn each_name(
    state: &State,
    spot: Spot,
    names: Listed,
    index: u64,
    holder: Option<ObjId>,
    name: Units,
    meter: &Meter,
) -> Result<Next, OutOfMemory>
    ensures { IfOk result (λ n.
        Leads (visit (calls_at meter.now.depth) (here_of spot) (spot_node spot) holder name
        (drop (suc index) names))
        (suc (weigh (spot_node spot) 2) + suc (cost (and_child (spot_node spot) 0))) state.now
        meter.now n state.now meter.now) }
{
    if state.is_held(holder, &name) {
        let target = spot.at(spot.part(0))?;
        let frame = Frame::Each(EachFrame {
            spot,
            names,
            index,
            assigning: true,
        });
        let boxed = BoxedFrame::of(state.alloc(), frame)?;
        Ok(Next::Then(boxed, Begin::Target(target, Value::Text(name))))
    } else {
        let frame = Frame::Each(EachFrame {
            spot,
            names,
            index,
            assigning: false,
        });
        let boxed = BoxedFrame::of(state.alloc(), frame)?;
        Ok(Next::Go(boxed, Signal::Value(Value::Undefined)))
    }
}

/// A for-in goes on once its target has taken a name, or from the end of its body (section 12.6.4).
pub fn go_each(
    state: &mut State,
    frame: EachFrame,
    end: Signal,
    meter: &mut Meter,
) -> Result<Next, OutOfMemory>
    ensures { IfOk result (λ n.
        Steps (Frame.Each frame) end state.old meter.old n state.new meter.new) }
{
    if frame.assigning {
        match end {
            Signal::Value(_) => each_body(state.alloc(), frame, meter),
            other => Ok(Next::Give(other)),
        }
    } else {
        match loop_end(end) {
            None => each_after(state, frame, meter),
            Some(last) => Ok(Next::Give(last)),
        }
    }
}

// The body runs with the name of this index.
fn each_body(alloc: Global, frame: EachFrame, meter: &Meter) -> Result<Next, OutOfMemory>
    ensures { (w : Store) →
        IfOk result (λ n.
        Leads (bind (part (calls_at meter.now.depth) (here_of frame.spot) (spot_node frame.spot) 2)
        (turned (spec.each_of (calls_at meter.now.depth) (here_of frame.spot) (spot_node frame.spot)
        (drop (suc frame.index) frame.names))))
        (weigh (spot_node frame.spot) 2) w meter.now n w meter.now) }
{
    let EachFrame {
        spot,
        names,
        index,
        assigning: _,
    } = frame;
    let body = spot.at(spot.part(2))?;
    let frame = Frame::Each(EachFrame {
        spot,
        names,
        index,
        assigning: false,
    });
    let boxed = BoxedFrame::of(alloc, frame)?;
    Ok(Next::Then(boxed, Begin::Node(body)))
}

// A turn for each name after that of this index.
fn each_after(state: &State, frame: EachFrame, meter: &mut Meter) -> Result<Next, OutOfMemory>
    ensures { IfOk result (λ n.
        Leads (spec.each_of (calls_at meter.old.depth) (here_of frame.spot) (spot_node frame.spot)
        (drop (suc frame.index) frame.names))
        0 state.now meter.old n state.now meter.new) }
{
    let EachFrame {
        spot,
        names,
        index,
        assigning: _,
    } = frame;
    if index < names.as_slice().len() as u64 {
        each_from(state, spot, names, index + 1, meter)
    } else {
        Ok(nothing())
    }
}

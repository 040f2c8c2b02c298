//! The loop of the machine.

ghost use Rattle.std.specs.Prelude.{◌≡◌, ◌<◌, ◌^◌, IfOk};
ghost use Rattle.page_meaning.specs.Calls.{calls_at};
ghost use Rattle.page_frames.specs.Rest.{mean_of};
ghost use Rattle.page_machine.specs.Ends.{outcome_of};

use crate::steps::{begin, go};
use js_core::OutOfMemory;
use page_frames::{Begin, Meter, Next};
use page_meaning::Signal;
use page_state::State;

/// How what is run ends.
#[derive(Drop)]
pub enum End {
    /// With this signal.
    Ended(Signal),
    /// A step was to be taken, and none was left.
    Stopped,
}

/// Runs what begins, and all that it calls, on a stack of its own: neither calls nor nesting take any of the host's. The
/// page is as the meaning leaves it, and so are the steps that are left. After want of memory nothing is said of the page.
pub fn run(state: &mut State, what: Begin, meter: &mut Meter) -> Result<End, OutOfMemory>
    ensures { IfOk result (λ end. outcome_of end state.new meter.new.steps
        ≡ (mean_of (calls_at meter.old.depth) what).run state.old meter.old.steps) }
{
    has_room(meter);
    let mut stack = Vec::new(state.alloc());
    let mut next = Next::Enter(what);
    loop {
        next = match next {
            Next::Give(end) => match stack.pop() {
                None => return Ok(End::Ended(end)),
                Some(frame) => go(state, frame, end, meter)?,
            },
            Next::Go(frame, end) => go(state, frame, end, meter)?,
            Next::Enter(part) => begin(state, part, meter)?,
            Next::Then(frame, part) => {
                stack.push(frame)?;
                begin(state, part, meter)?
            }
            Next::Stopped => return Ok(End::Stopped),
        };
    }
}

// The levels of depth are a number of 32 bits. No cost.
fn has_room(meter: &Meter)
    ensures { meter.now.depth < 2 ^ 32 }
{
    let _depth = depth_left(meter);
}

fn depth_left(meter: &Meter) -> u32
    ensures { result ≡ meter.now.depth }
{
    meter.depth
}

//! Turns for which no step was left.

ghost use Rattle.step_visit.specs.Stopping.{Stops};

use js_core::OutOfMemory;
use page_frames::Next;
use page_state::Halt;

/// What told nothing, since no step was left for a turn, stops the task. It threw nothing.
pub fn stop(halt: Halt) -> Result<Next, OutOfMemory>
    ensures { Stops halt result }
{
    match halt {
        Halt::Stopped => Ok(Next::Stopped),
        Halt::Fault(_) => Err(OutOfMemory),
    }
}

//! The next element of an array.

ghost use Rattle.std.specs.Prelude.{◌-◌};
ghost use Rattle.page_state.specs.Turns.{Tells};
ghost use Rattle.step_visit.specs.Finding.{next_found};

use js_values::{ObjId, Value};
use page_state::{Halt, State, take_turn};

/// The next element from an index on with its index, or `None` past the last. Each turn takes a step, over a hole too.
pub fn next_element(
    state: &State,
    steps: &mut u64,
    list: ObjId,
    start: u64,
    length: u64,
) -> Result<Option<(u64, Value)>, Halt>
    ensures { Tells (λ _. next_found list start (length - start)) state.now steps.old state.now
        steps.new result }
{
    for index in start..length {
        take_turn(steps)?;
        match state.element(list, index)? {
            Some(element) => return Ok(Some((index, element))),
            None => (),
        }
    }
    Ok(None)
}

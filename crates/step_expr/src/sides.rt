//! Expressions of two sides: the left one is held while the right one runs (ECMA-262 5.1 sections 11.2.1 and 11.5 to 11.10).

ghost use Rattle.std.specs.Prelude.{◌≡◌, ◌∷◌, [], IfOk};
ghost use Rattle.code_table.specs.Kind.{kind_of};
ghost use Rattle.page_frames.specs.Step.{Goes};
ghost use Rattle.page_frames.specs.Where.{spot_node};

use js_core::OutOfMemory;
use js_values::Value;
use object_heap::Values;
use page_frames::{Meter, Next, Spot};
use page_state::State;
use step_parts::run_part;

/// The value of the left side is held, and the right side runs.
pub(crate) fn run_right(
    state: &State,
    spot: Spot,
    value: Value,
    meter: &Meter,
) -> Result<Next, OutOfMemory>
    ensures { IfOk result (λ n.
        Goes spot (kind_of (spot_node spot)) 1 (value ∷ []) 1 state.now meter.now n) }
{
    let mut got = Values::new(state.alloc());
    got.push(value)?;
    run_part(state, spot, 1, got, 1, meter)
}

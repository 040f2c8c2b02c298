//! What begins with its first part (ECMA-262 5.1 section 11).

ghost use Rattle.std.specs.Prelude.{◌≡◌, IfOk, true};
ghost use Rattle.code_table.specs.Kind.{kind_of};
ghost use Rattle.page_frames.specs.Step.{Opens};
ghost use Rattle.page_frames.specs.Where.{spot_node};
ghost use Rattle.step_parts.specs.Families.{family_of};
ghost use Rattle.step_expr.specs.Begins.{begins_first};

use js_core::OutOfMemory;
use object_heap::Values;
use page_frames::{Meter, Next, Spot};
use page_state::State;
use step_parts::await_part;

/// An operator, a property that is read or changed, or a call begins with a first part that is not read at once (sections 11.2 to 11.13).
pub fn begin_first(state: &State, spot: Spot, meter: &Meter) -> Result<Next, OutOfMemory>
    requires { begins_first (family_of (kind_of (spot_node spot))) ≡ true }
    ensures { IfOk result (λ n. Opens spot state.now meter.now n state.now meter.now) }
{
    let number = spot.part(0);
    let got = Values::new(state.alloc());
    await_part(state.alloc(), spot, 0, got, number)
}

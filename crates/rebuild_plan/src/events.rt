//! What events have.

ghost use Rattle.std.specs.Prelude.{◌≡◌, ◌++◌, ℕ, List, OnOk};
ghost use Rattle.rebuild_plan.specs.Moved.{moved_proto};
ghost use Rattle.page_meaning.specs.Properties.{class_at};
ghost use Rattle.rebuild_plan.specs.Events as saved;
ghost use Rattle.rebuild_plan.specs.Plan as spec;

use crate::moved::moved;
use crate::statement::Rebuild;
use heap_walker::Walked;
use js_core::OutOfMemory;
use js_values::ObjId;
use object_heap::{Class, EventParts};
use page_state::State;

/// An event is initialised, and dispatched where it was. No listener is there yet.
pub fn push_event(
    state: &State,
    walked: &Walked,
    at: ObjId,
    place: ObjId,
    plan: &mut Vec<Rebuild>,
) -> Result<(), OutOfMemory>
    ensures { OnOk result (plan.new.items ≡ plan.old.items ++ spec.event place
        (saved.event_as walked.now.things.keys (class_at state.now at))) }
{
    match state.class(at) {
        Class::Event(parts) => push_parts(walked, parts, place, plan),
        Class::Plain
        | Class::List
        | Class::Page { .. }
        | Class::Native(_)
        | Class::Bound { .. }
        | Class::Fault
        | Class::Math
        | Class::Window
        | Class::Node(_) => Ok(()),
    }
}

fn push_parts(
    walked: &Walked,
    parts: &EventParts,
    place: ObjId,
    plan: &mut Vec<Rebuild>,
) -> Result<(), OutOfMemory>
    ensures { OnOk result (plan.new.items ≡ plan.old.items
        ++ (spec.init place (saved.event_of walked.now.things.keys parts.now)
        ++ spec.dispatch place (saved.event_of walked.now.things.keys parts.now).target)) }
{
    push_init(parts, place, plan)?;
    push_dispatch(walked, parts.target, place, plan)?;
    Ok(())
}

fn push_init(parts: &EventParts, place: ObjId, plan: &mut Vec<Rebuild>) -> Result<(), OutOfMemory>
    ensures { (things : List ℕ) → OnOk result (plan.new.items
        ≡ plan.old.items ++ spec.init place (saved.event_of things parts.now)) }
{
    if parts.begun {
        plan.push(Rebuild::Init {
            event: place,
            kind: parts.kind.clone()?,
            bubbles: parts.bubbles,
            cancelable: parts.cancelable,
        })?;
    }
    Ok(())
}

fn push_dispatch(
    walked: &Walked,
    target: Option<ObjId>,
    place: ObjId,
    plan: &mut Vec<Rebuild>,
) -> Result<(), OutOfMemory>
    ensures { OnOk result (plan.new.items ≡ plan.old.items
        ++ spec.dispatch place (moved_proto walked.now.things.keys target)) }
{
    let Some(target) = target else {
        return Ok(());
    };
    plan.push(Rebuild::Dispatch {
        target: moved(walked, target),
        event: place,
    })?;
    Ok(())
}

//! The plan of a page.

ghost use Rattle.std.specs.Prelude.{◌≡◌, ◌++◌, ◌∷◌, [], IfOk, OnOk, if◌then◌else◌};
ghost use Rattle.heap_walker.specs.Heard.{AreHeard};
ghost use Rattle.object_heap.specs.Chain.{object_at};
ghost use Rattle.rebuild_plan.specs.Compact as saved;
ghost use Rattle.rebuild_plan.specs.Plan as spec;
ghost use Rattle.rebuild_plan.specs.declared.statement.Rebuild.TheVariants.{Prevent};

use crate::events::push_event;
use crate::makers::maker_of;
use crate::nodes::{push_children, push_contents, push_listeners};
use crate::phase::Phase;
use crate::properties::{push_fill, push_globals};
use crate::statement::Rebuild;
use crate::timers::push_timers;
use heap_walker::{FIRST_THING, Heard, Walked};
use js_core::OutOfMemory;
use js_values::ObjId;
use page_state::{DOCUMENT, State, further};

/// The statements that rebuild a page, of which these are the things that can be reached. The work and the memory are in proportion to
/// what the things hold.
pub fn plan(state: &State, walked: &Walked) -> Result<Vec<Rebuild>, OutOfMemory>
    ensures { IfOk result (λ plan.
        plan.items ≡ spec.plan (saved.compact state.now walked.now.things.keys)) }
{
    let heard = Heard::of_page(state)?;
    let mut plan = Vec::new(state.alloc());
    push_makes(state, walked, &mut plan)?;
    push_whole(state, &heard, walked, Phase::Children, &mut plan)?;
    push_whole(state, &heard, walked, Phase::Contents, &mut plan)?;
    push_whole(state, &heard, walked, Phase::Events, &mut plan)?;
    push_whole(state, &heard, walked, Phase::Listeners, &mut plan)?;
    push_globals(state, walked, &mut plan)?;
    push_whole(state, &heard, walked, Phase::Properties, &mut plan)?;
    push_timers(state, walked, &mut plan)?;
    push_whole(state, &heard, walked, Phase::Ends, &mut plan)?;
    Ok(plan)
}

// The things are made.
fn push_makes(state: &State, walked: &Walked, plan: &mut Vec<Rebuild>) -> Result<(), OutOfMemory>
    ensures { OnOk result (plan.new.items ≡ plan.old.items ++ spec.makes 0
        (saved.things_at state.now walked.now.things.keys walked.now.things.keys)) }
{
    for number in 0..walked.things.len() {
        let at = ObjId(walked.things.as_slice()[number]);
        plan.push(Rebuild::Make {
            number: number as u64,
            maker: maker_of(state, walked, at)?,
        })?;
    }
    Ok(())
}

// The statements of a phase: those of the document, and then those of each thing.
fn push_whole(
    state: &State,
    heard: &Heard,
    walked: &Walked,
    phase: Phase,
    plan: &mut Vec<Rebuild>,
) -> Result<(), OutOfMemory>
    requires { AreHeard state.now.host.listeners heard.now }
    ensures { OnOk result (plan.new.items ≡ plan.old.items
        ++ spec.whole phase (saved.compact state.now walked.now.things.keys)) }
{
    push_statements(state, heard, walked, phase, DOCUMENT, DOCUMENT, plan)?;
    push_each(state, heard, walked, phase, plan)?;
    Ok(())
}

fn push_each(
    state: &State,
    heard: &Heard,
    walked: &Walked,
    phase: Phase,
    plan: &mut Vec<Rebuild>,
) -> Result<(), OutOfMemory>
    requires { AreHeard state.now.host.listeners heard.now }
    ensures { OnOk result (plan.new.items ≡ plan.old.items ++ spec.each phase 0
        (saved.things_at state.now walked.now.things.keys walked.now.things.keys)) }
{
    for number in 0..walked.things.len() {
        let at = ObjId(walked.things.as_slice()[number]);
        push_thing(state, heard, walked, phase, at, number, plan)?;
    }
    Ok(())
}

// Those of the thing with this number.
fn push_thing(
    state: &State,
    heard: &Heard,
    walked: &Walked,
    phase: Phase,
    at: ObjId,
    number: usize,
    plan: &mut Vec<Rebuild>,
) -> Result<(), OutOfMemory>
    requires { AreHeard state.now.host.listeners heard.now }
    ensures { OnOk result (plan.new.items ≡ plan.old.items
        ++ spec.statements_of phase (spec.thing_place number)
        (saved.thing_at state.now walked.now.things.keys at.0)) }
{
    let place = thing_place(number)?;
    push_statements(state, heard, walked, phase, at, place, plan)?;
    Ok(())
}

// The place of the thing with this number.
#[tactic(auto, unfolding(page_meaning::specs::Places::built_in_count))]
fn thing_place(number: usize) -> Result<ObjId, OutOfMemory>
    ensures { IfOk result (λ at. at ≡ spec.thing_place number) }
{
    Ok(ObjId(further(FIRST_THING, number as u64)?))
}

// The statements of a phase for an object, which gets this place.
fn push_statements(
    state: &State,
    heard: &Heard,
    walked: &Walked,
    phase: Phase,
    at: ObjId,
    place: ObjId,
    plan: &mut Vec<Rebuild>,
) -> Result<(), OutOfMemory>
    requires { AreHeard state.now.host.listeners heard.now }
    ensures { OnOk result (plan.new.items ≡ plan.old.items ++ spec.statements_of phase place
        (saved.thing_at state.now walked.now.things.keys at.0)) }
{
    match phase {
        Phase::Children => push_children(state, walked, at, place, plan),
        Phase::Contents => push_contents(state, walked, at, place, plan),
        Phase::Events => push_event(state, walked, at, place, plan),
        Phase::Listeners => push_listeners(state, heard, walked, at, place, plan),
        Phase::Properties => push_fill(state, walked, at, place, plan),
        Phase::Ends => push_prevent(state, at, place, plan),
    }
}

// A thing that gets no new properties any more.
fn push_prevent(
    state: &State,
    at: ObjId,
    place: ObjId,
    plan: &mut Vec<Rebuild>,
) -> Result<(), OutOfMemory>
    ensures { OnOk result (plan.new.items ≡ plan.old.items
        ++ (if (object_at state.now.heap.objects at.0).extensible then []
        else Prevent place ∷ [])) }
{
    if !state.is_extensible(at) {
        plan.push(Rebuild::Prevent { at: place })?;
    }
    Ok(())
}

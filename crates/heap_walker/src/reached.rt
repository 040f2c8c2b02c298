//! What can be reached.

ghost use Rattle.std.specs.Prelude.{IfOk, OnOk};
ghost use Rattle.heap_walker.specs.Heard.{AreHeard};
ghost use Rattle.heap_walker.specs.Things.{IsWalk};
ghost use Rattle.heap_walker.specs.Walking.{IsAll, IsPart};

use crate::heard::Heard;
use crate::links::{see_links, see_roots};
use indexmap::IndexSet;
use js_core::OutOfMemory;
use js_values::ObjId;
use page_state::State;

/// The places of the things of a page that can be reached, each once, oldest first.
#[derive(Drop)]
pub struct Walked {
    pub things: IndexSet<u64>,
}

/// The things that can be reached from the globals, the document and the timers of a page, oldest first. The work is in proportion to
/// what they hold, but for sorting their places.
pub fn walk(state: &State) -> Result<Walked, OutOfMemory>
    ensures { IfOk result (λ walked. IsWalk state.now walked.things.keys) }
{
    let heard = Heard::of_page(state)?;
    let mut seen = IndexSet::new(state.alloc());
    see_roots(state, &heard, &mut seen)?;
    see_rest(state, &heard, &mut seen)?;
    seen.sort_unstable()?;
    Ok(Walked { things: seen })
}

// What the things that were seen refer to, and so on.
fn see_rest(state: &State, heard: &Heard, seen: &mut IndexSet<u64>) -> Result<(), OutOfMemory>
    requires heard { AreHeard state.now.host.listeners heard.now }
    requires part { IsPart state.now 0 seen.old.keys }
    ensures { OnOk result (IsAll state.now seen.new.keys) }
{
    let mut first = 0;
    while first < seen.len() {
        let place = seen.as_slice()[first];
        see_links(state, heard, ObjId(place), seen)?;
        first += 1;
    }
    Ok(())
}

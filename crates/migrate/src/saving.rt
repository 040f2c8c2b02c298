//! What is saved of a page.

ghost use Rattle.std.specs.Prelude.{◌≡◌, ◌≤◌, true, false, IfErr, IfOk, Err};
ghost use Rattle.heap_walker.specs.Things.{IsWalk};
ghost use Rattle.heap_walker.specs.Weight.{load_of, told};
ghost use Rattle.page_meaning.specs.Pages.{run_of};
ghost use Rattle.opened_pages.specs.Opened.{HaveNumbers};
ghost use Rattle.outcomes.specs.Stages.{IsRefusal};
ghost use Rattle.migrate.specs.Moving.{IsAnswer, unsaved_status};
ghost use Rattle.migrate.specs.Saving.{IsTooMuch};
ghost use Rattle.read_files.specs.Page.{opened};

use crate::unsaved::Unsaved;
use heap_walker::{Walked, Weight, walk, weight_of};
use js_core::{OutOfMemory, SAVED_TEXT_LIMIT, SAVED_THINGS_LIMIT};
use js_values::Event;
use opened_pages::open_checked;
use page_check::CheckedPage;
use page_io::Sink;
use page_state::State;
use page_writer::{NotSaved, SaveFault, write_walked};
use read_files::run_page;
use session::Session;
use std::alloc::Global;

/// The session of a page with opened scopes, after the events.
pub fn run_opened(alloc: Global, page: CheckedPage, list: &[Event]) -> Result<Session, OutOfMemory>
    ensures state { IfOk result (λ s. s.page ≡ run_of (opened page) list.now) }
    ensures numbered { IfOk result (λ _. HaveNumbers page.kind page.scripts) }
{
    match open_checked(alloc, page) {
        Ok(opened) => run_page(alloc, opened, list),
        Err(OutOfMemory) => Err(OutOfMemory),
    }
}

/// Puts the page as it is after the events, with opened scopes, where it is not too large. Of a page that is, nothing is put.
pub fn save_page<O: Sink>(
    alloc: Global,
    page: CheckedPage,
    list: &[Event],
    out: &mut O,
) -> Result<(), Unsaved>
    ensures answer { IsAnswer (run_of (opened page) list.now)
        (O.seen out.old) (O.seen out.new) result }
    ensures later { (O.seen out.old).faults ≤ (O.seen out.new).faults }
    ensures numbered { ¬ (result ≡ Err Unsaved.OutOfMemory)
        → HaveNumbers page.kind page.scripts }
    ensures unput { IfErr result (λ cause. IsRefusal (unsaved_status cause) → out.new ≡ out.old) }
{
    match run_opened(alloc, page, list) {
        Ok(session) => write_state(session.state(), out),
        Err(OutOfMemory) => Err(Unsaved::OutOfMemory),
    }
}

/// Puts the page as it is, where it is not too large. Of a page that is, nothing is put.
pub fn write_state<O: Sink>(state: &State, out: &mut O) -> Result<(), Unsaved>
    ensures answer { IsAnswer state.now (O.seen out.old) (O.seen out.new) result }
    ensures later { (O.seen out.old).faults ≤ (O.seen out.new).faults }
    ensures unput { IfErr result (λ cause. IsRefusal (unsaved_status cause) → out.new ≡ out.old) }
{
    match walk(state) {
        Ok(walked) => weigh_and_put(state, &walked, out),
        Err(OutOfMemory) => Err(Unsaved::OutOfMemory),
    }
}

// Puts the page whose things these are. It is weighed here, so that the output itself is left where it is too large.
fn weigh_and_put<O: Sink>(state: &State, walked: &Walked, out: &mut O) -> Result<(), Unsaved>
    requires { IsWalk state.now walked.now.things.keys }
    ensures answer { IsAnswer state.now (O.seen out.old) (O.seen out.new) result }
    ensures later { (O.seen out.old).faults ≤ (O.seen out.new).faults }
    ensures unput { IfErr result (λ cause. IsRefusal (unsaved_status cause) → out.new ≡ out.old) }
{
    match weight_of(state, walked) {
        Ok(weight) if is_too_much(weight) => Err(Unsaved::TooLarge(weight)),
        Ok(_) => put_walked(state, walked, out),
        Err(OutOfMemory) => Err(Unsaved::OutOfMemory),
    }
}

// Whether there are more things or there is more text than a saved page may have.
fn is_too_much(weight: Weight) -> bool
    ensures yes { result ≡ true → IsTooMuch weight }
    ensures no { result ≡ false → ¬ IsTooMuch weight }
{
    weight.things > SAVED_THINGS_LIMIT || weight.text > SAVED_TEXT_LIMIT
}

// Puts the page whose things these are, which is not too large.
fn put_walked<O: Sink>(state: &State, walked: &Walked, out: &mut O) -> Result<(), Unsaved>
    requires walked { IsWalk state.now walked.now.things.keys }
    requires little { ¬ IsTooMuch (told (load_of state.now walked.now.things.keys)) }
    ensures answer { IsAnswer state.now (O.seen out.old) (O.seen out.new) result }
    ensures later { (O.seen out.old).faults ≤ (O.seen out.new).faults }
    ensures unput { IfErr result (λ cause. IsRefusal (unsaved_status cause) → out.new ≡ out.old) }
{
    match write_walked(state, walked, out) {
        Ok(()) => Ok(()),
        Err(SaveFault::Cause(NotSaved::TooMany(weight))) => Err(Unsaved::TooLarge(weight)),
        Err(SaveFault::Cause(NotSaved::TooLong(weight))) => Err(Unsaved::TooLarge(weight)),
        Err(SaveFault::Cause(NotSaved::WriteFault)) => Err(Unsaved::WriteFault),
        Err(SaveFault::OutOfMemory) => Err(Unsaved::OutOfMemory),
    }
}

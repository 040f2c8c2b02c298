//! The text of a saved page, whole.

ghost use Rattle.std.specs.Prelude.{◌≡◌, IfOk, IfErr, Some};
ghost use Rattle.opened_pages.specs.Opened.{HaveNumbers};
ghost use Rattle.page_meaning.specs.Pages.{run_of};
ghost use Rattle.migrate.specs.Moving.{IsSaved, IsNotSaved};
ghost use Rattle.read_files.specs.Page.{opened};

use crate::saving::{run_opened, write_state};
use crate::unsaved::Unsaved;
use js_core::OutOfMemory;
use js_values::Event;
use page_check::CheckedPage;
use page_io::{PutFault, Sink};
use page_state::State;
use std::alloc::Global;

// What is put, in memory. A put fails where memory runs out.
#[derive(Drop)]
struct Gathered {
    bytes: Vec<u8>,
    faults: u64,
}

impl Sink for Gathered {
    ghost use Rattle.std.specs.Prelude.{Some};

    ghost seen = { λ s. record { taken = Some s.bytes.items; faults = s.faults } };

    fn put(&mut self, piece: &[u8]) -> Result<(), PutFault> {
        if self.bytes.extend_from_slice(piece).is_ok() {
            return Ok(());
        }
        self.faults = self.faults.saturating_add(1);
        Err(PutFault::Failed)
    }
}

/// The text of the page as it is, where it is not too large.
pub fn state_text(state: &State) -> Result<Vec<u8>, Unsaved>
    ensures ok { IfOk result (λ text. IsSaved state.now text.items) }
    ensures stops { IfErr result (IsNotSaved state.now) }
{
    let mut text = Gathered {
        bytes: Vec::new(state.alloc()),
        faults: 0,
    };
    match write_state(state, &mut text) {
        Ok(()) => Ok(text.bytes),
        Err(Unsaved::WriteFault) => Err(Unsaved::OutOfMemory),
        Err(cause) => Err(cause),
    }
}

/// The text of the page as it is after the events, with opened scopes, where it is not too large.
pub fn saved_text(alloc: Global, page: CheckedPage, list: &[Event]) -> Result<Vec<u8>, Unsaved>
    ensures ok { IfOk result (λ text. IsSaved (run_of (opened page) list.now) text.items) }
    ensures stops { IfErr result (IsNotSaved (run_of (opened page) list.now)) }
    ensures numbered { IfOk result (λ _. HaveNumbers page.kind page.scripts) }
{
    match run_opened(alloc, page, list) {
        Ok(session) => state_text(session.state()),
        Err(OutOfMemory) => Err(Unsaved::OutOfMemory),
    }
}

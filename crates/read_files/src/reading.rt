//! Reading the files of a command.

ghost use Rattle.std.specs.Prelude.{◌≡◌, ℕ, List, IfOk, IfErr};
ghost use Rattle.dom_tree.specs.Sound.{IsSound};
ghost use Rattle.page_check.specs.Accept.{IsAccepted, IsAcceptedAt};
ghost use Rattle.read_files.specs.Opening.{IsOpened, OpensTo};
ghost use Rattle.read_files.specs.Page.{IsPage};
ghost use Rattle.outcomes.specs.Seen.{FilesLast, Of};
ghost use Rattle.read_files.specs.Reading.{AreRead, IsPageFile, IsUntaken, StopsAtPage, StopsAtEvents, StopsReading, CountsReads};
ghost use Rattle.read_files.specs.Replay.{IsEventFile};

use event_file::{EventFault, NotEvents, events};
use js_core::{EVENT_FILE_LIMIT, OutOfMemory, PAGE_LIMIT};
use js_values::Event;
use opened_pages::{law_opened_pages_are_accepted, law_opened_pages_put_out_the_same, open_page};
use outcomes::Status;
use page_check::{AcceptFault, Accepted, CheckedPage, accept};
use page_io::{Files, ReadFault};
use std::alloc::Global;

// Reads a page file.
fn read_bytes<F: Files>(alloc: Global, files: &mut F, name: &str) -> Result<Vec<u8>, Status>
    ensures ok { IfOk result (λ bytes. Of ((F.seen files.old).content name.now)
        (λ held. IsPageFile held bytes.items)) }
    ensures stops { IfErr result
        (λ status. StopsAtPage status ((F.seen files.old).content name.now)) }
    ensures same { (n : List ℕ) → (F.seen files.new).content n ≡ (F.seen files.old).content n }
    ensures counts { CountsReads (F.seen files.old) (F.seen files.new) name.now result }
{
    match files.read(alloc, name, PAGE_LIMIT) {
        Ok(bytes) => Ok(bytes),
        Err(ReadFault::Failed) => Err(Status::ReadFault),
        Err(ReadFault::TooLong) => Err(Status::PageRefused(None)),
        Err(ReadFault::OutOfMemory) => Err(Status::OutOfMemory),
    }
}

// Accepts the page of these bytes. What always holds of nodes is recalled by their number.
fn accept_bytes(alloc: Global, bytes: &[u8]) -> Result<Accepted, Status>
    ensures ok { IfOk result (IsAcceptedAt bytes.now) }
    ensures sound { IfOk result (λ found. IsSound found.page.nodes) }
    ensures stops { IfErr result (IsUntaken bytes.now) }
{
    match accept(alloc, bytes) {
        Ok(accepted) => {
            let _count = accepted.page().dom().count();
            Ok(accepted)
        }
        Err(AcceptFault::Cause(refusal)) => Err(Status::PageRefused(Some(refusal))),
        Err(AcceptFault::OutOfMemory) => Err(Status::OutOfMemory),
    }
}

/// Accepts the page of these bytes, without where its parts stand.
pub fn accept_page(alloc: Global, bytes: &[u8]) -> Result<CheckedPage, Status>
    ensures ok { IfOk result (IsAccepted bytes.now) }
    ensures sound { IfOk result (λ page. IsSound page.nodes) }
    ensures stops { IfErr result (IsUntaken bytes.now) }
{
    match accept_bytes(alloc, bytes) {
        Ok(accepted) => Ok(accepted.into_page()),
        Err(status) => Err(status),
    }
}

/// Reads and accepts a page.
pub fn read_page<F: Files>(alloc: Global, files: &mut F, name: &str) -> Result<CheckedPage, Status>
    ensures ok { IfOk result (λ page. Of ((F.seen files.old).content name.now)
        (λ bytes. IsPage bytes page)) }
    ensures sound { IfOk result (λ page. IsSound page.nodes) }
    ensures stops { IfErr result
        (λ status. StopsAtPage status ((F.seen files.old).content name.now)) }
    ensures same { (n : List ℕ) → (F.seen files.new).content n ≡ (F.seen files.old).content n }
    ensures counts { CountsReads (F.seen files.old) (F.seen files.new) name.now result }
{
    let bytes = match read_bytes(alloc, files, name) {
        Ok(bytes) => bytes,
        Err(status) => return Err(status),
    };
    accept_page(alloc, &bytes)
}

// The text of the page of these bytes with opened scopes.
fn open_bytes(alloc: Global, bytes: &[u8]) -> Result<Vec<u8>, Status>
    ensures ok { IfOk result (λ text. IsOpened bytes.now text.items) }
    ensures stops { IfErr result (IsUntaken bytes.now) }
{
    let accepted = match accept_bytes(alloc, bytes) {
        Ok(accepted) => accepted,
        Err(status) => return Err(status),
    };
    match open_page(alloc, bytes, &accepted) {
        Ok(text) => Ok(text),
        Err(OutOfMemory) => Err(Status::OutOfMemory),
    }
}

/// Reads and accepts a page, and gives its text with opened scopes.
pub fn read_opened<F: Files>(alloc: Global, files: &mut F, name: &str) -> Result<Vec<u8>, Status>
    ensures ok { IfOk result (λ text. Of ((F.seen files.old).content name.now)
        (λ bytes. OpensTo bytes text.items)) }
    ensures stops { IfErr result
        (λ status. StopsAtPage status ((F.seen files.old).content name.now)) }
    ensures same { (n : List ℕ) → (F.seen files.new).content n ≡ (F.seen files.old).content n }
    ensures counts { CountsReads (F.seen files.old) (F.seen files.new) name.now result }
{
    law_opened_pages_are_accepted();
    law_opened_pages_put_out_the_same();
    let bytes = match read_bytes(alloc, files, name) {
        Ok(bytes) => bytes,
        Err(status) => return Err(status),
    };
    open_bytes(alloc, &bytes)
}

/// Reads an event file.
pub fn read_events<F: Files>(alloc: Global, files: &mut F, name: &str) -> Result<Vec<Event>, Status>
    ensures ok { IfOk result (λ list. Of ((F.seen files.old).content name.now)
        (λ file. IsEventFile file list.items)) }
    ensures stops { IfErr result
        (λ status. StopsAtEvents status ((F.seen files.old).content name.now)) }
    ensures same { (n : List ℕ) → (F.seen files.new).content n ≡ (F.seen files.old).content n }
    ensures counts { CountsReads (F.seen files.old) (F.seen files.new) name.now result }
{
    let bytes = match files.read(alloc, name, EVENT_FILE_LIMIT) {
        Ok(bytes) => bytes,
        Err(ReadFault::Failed) => return Err(Status::ReadFault),
        Err(ReadFault::TooLong) => return Err(Status::EventsRefused(0)),
        Err(ReadFault::OutOfMemory) => return Err(Status::OutOfMemory),
    };
    match events(alloc, &bytes) {
        Ok(list) => Ok(list),
        Err(EventFault::Cause(NotEvents(number))) => Err(Status::EventsRefused(number)),
        Err(EventFault::OutOfMemory) => Err(Status::OutOfMemory),
    }
}

/// Reads and accepts a page, and reads its events. The first cause to end is the answer.
pub fn read_session<F: Files>(
    alloc: Global,
    page: &str,
    events: &str,
    files: &mut F,
) -> Result<(CheckedPage, Vec<Event>), Status>
    ensures ok { IfOk result (λ read. AreRead ((F.seen files.old).content page.now)
        ((F.seen files.old).content events.now) read.0 read.1.items) }
    ensures stops { IfErr result (λ status.
        StopsReading page.now events.now status (F.seen files.old) (F.seen files.new)) }
    ensures lasts { FilesLast (F.seen files.old) (F.seen files.new) }
{
    let page = match read_page(alloc, files, page) {
        Ok(page) => page,
        Err(status) => return Err(status),
    };
    match read_events(alloc, files, events) {
        Ok(list) => Ok((page, list)),
        Err(status) => Err(status),
    }
}

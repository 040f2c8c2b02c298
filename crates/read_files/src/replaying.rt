//! What `replay` writes.

ghost use Rattle.std.specs.Prelude.{◌≡◌, IfOk};
ghost use Rattle.js_values.specs.Line.{lines_text};
ghost use Rattle.page_meaning.specs.Pages.{lines_of_run, run_all, run_of};
ghost use Rattle.read_files.specs.Page.{running};
ghost use Rattle.outcomes.specs.Seen.{FilesLast};
ghost use Rattle.outcomes.specs.Work.{GivesOfFiles};
ghost use Rattle.read_files.specs.Works.{replaying};

use crate::reading::read_session;
use js_core::OutOfMemory;
use js_values::{Event, Line};
use outcomes::Status;
use page_check::CheckedPage;
use page_io::Files;
use session::{Session, load};
use std::alloc::Global;

/// The session of a page after the events.
pub fn run_page(alloc: Global, page: CheckedPage, list: &[Event]) -> Result<Session, OutOfMemory>
    ensures { IfOk result (λ s. s.page ≡ run_of (running page) list.now) }
{
    let mut session = load(alloc, page)?;
    for event in list {
        session.act(event)?;
    }
    Ok(session)
}

// The text of lines.
fn text_of(alloc: Global, lines: &[Line]) -> Result<Vec<u8>, OutOfMemory>
    ensures { IfOk result (λ text. text.items ≡ lines_text lines.now) }
{
    let mut text = Vec::new(alloc);
    for line in lines {
        line.write(&mut text)?;
    }
    Ok(text)
}

// The text of the lines that the scripts of a page and then the events put out.
fn replayed_text(alloc: Global, page: CheckedPage, list: &[Event]) -> Result<Vec<u8>, OutOfMemory>
    ensures { IfOk result (λ text.
        text.items ≡ lines_text (lines_of_run (running page) list.now)) }
{
    let session = run_page(alloc, page, list)?;
    text_of(alloc, session.lines())
}

/// The lines of the page and the events of these names. The order is: reading and accepting the page, reading the events,
/// loading and acting. The first cause to end is the answer.
pub fn replay<F: Files>(
    alloc: Global,
    page: &str,
    events: &str,
    files: &mut F,
) -> Result<Vec<u8>, Status>
    ensures gives { GivesOfFiles (replaying page.now events.now) result
        (F.seen files.old) (F.seen files.new) }
    ensures lasts { FilesLast (F.seen files.old) (F.seen files.new) }
{
    let (page, list) = match read_session(alloc, page, events, files) {
        Ok(read) => read,
        Err(status) => return Err(status),
    };
    match replayed_text(alloc, page, &list) {
        Ok(text) => Ok(text),
        Err(OutOfMemory) => Err(Status::OutOfMemory),
    }
}

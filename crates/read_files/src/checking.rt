//! What `check` writes.

ghost use Rattle.std.specs.Prelude.{◌≡◌};
ghost use Rattle.read_files.specs.Checking as spec;
ghost use Rattle.outcomes.specs.Seen.{FilesLast};
ghost use Rattle.outcomes.specs.Work.{GivesOfFiles};
ghost use Rattle.read_files.specs.Works.{checking};

use crate::reading::read_page;
use outcomes::Status;
use page_check::Kind;
use page_io::Files;
use std::alloc::Global;

#[tactic(auto, unfolding(crate::specs::Checking::kind_line))]
fn kind_line(kind: Kind) -> &'static [u8]
    ensures { result.now ≡ spec.kind_line kind }
{
    match kind {
        Kind::Plain => b"plain\n",
        Kind::Form => b"form\n",
    }
}

/// Of which kind the page of this name is, where it is accepted.
pub fn check<F: Files>(alloc: Global, page: &str, files: &mut F) -> Result<Vec<u8>, Status>
    ensures gives { GivesOfFiles (checking page.now) result
        (F.seen files.old) (F.seen files.new) }
    ensures lasts { FilesLast (F.seen files.old) (F.seen files.new) }
{
    let page = match read_page(alloc, files, page) {
        Ok(page) => page,
        Err(status) => return Err(status),
    };
    match Vec::from_slice(alloc, kind_line(page.kind())) {
        Ok(text) => Ok(text),
        Err(_) => Err(Status::OutOfMemory),
    }
}

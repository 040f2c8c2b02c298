//! What `instrument` writes.

ghost use Rattle.outcomes.specs.Seen.{FilesLast};
ghost use Rattle.outcomes.specs.Work.{GivesOfFiles};
ghost use Rattle.read_files.specs.Works.{instrumenting};

use crate::reading::read_opened;
use outcomes::Status;
use page_io::Files;
use std::alloc::Global;

/// The page of this name with opened scopes, where it is accepted.
pub fn instrument<F: Files>(alloc: Global, page: &str, files: &mut F) -> Result<Vec<u8>, Status>
    ensures gives { GivesOfFiles (instrumenting page.now) result
        (F.seen files.old) (F.seen files.new) }
    ensures lasts { FilesLast (F.seen files.old) (F.seen files.new) }
{
    read_opened(alloc, files, page)
}

//! What `save` does.

ghost use Rattle.std.specs.Prelude.{◌≡◌};
ghost use Rattle.page_io.specs.Seen.{KeeperSeen};
ghost use Rattle.outcomes.specs.Seen.{seen_between};
ghost use Rattle.outcomes.specs.Stages.{IsRefusal};
ghost use Rattle.outcomes.specs.Work.{Answers};
ghost use Rattle.command_line.specs.Works.{saving};

use migrate::{law_saved_pages_move, save_page};
use outcomes::Status;
use page_io::{Files, Sink};
use read_files::read_session;
use std::alloc::Global;

/// Writes the page of this name as it is after the events. The order is: reading and accepting the page, reading the
/// events, opening its scopes, loading and acting, what can be reached and whether it is too large, writing. The first
/// cause to end is the answer.
pub fn save<F: Files, O: Sink>(
    alloc: Global,
    page: &str,
    events: &str,
    files: &mut F,
    out: &mut O,
) -> Status
    ensures answers { (keeper : KeeperSeen) → Answers (saving page.now events.now) result
        (seen_between (F.seen files.old) (F.seen files.new) keeper keeper)
        (O.seen out.old) (O.seen out.new) }
    ensures unput { IsRefusal result → out.new ≡ out.old }
{
    law_saved_pages_move();
    let (page, list) = match read_session(alloc, page, events, files) {
        Ok(read) => read,
        Err(status) => return status,
    };
    match save_page(alloc, page, &list, out) {
        Ok(()) => Status::Ok,
        Err(cause) => cause.status(),
    }
}

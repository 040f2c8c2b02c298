//! A text that is put whole.

ghost use Rattle.std.specs.Prelude.{◌≡◌, ◌≤◌};
ghost use Rattle.outcomes.specs.Stages.{IsRefusal};
ghost use Rattle.outcomes.specs.Work.{IsPut};

use crate::status::Status;
use page_io::Sink;
use std::alloc::Global;

/// Puts the text of a command, or ends as what came in its place says.
pub fn put_text<O: Sink>(text: Result<Vec<u8>, Status>, out: &mut O) -> Status
    ensures put { IsPut text result (O.seen out.old) (O.seen out.new) }
    ensures later { (O.seen out.old).faults ≤ (O.seen out.new).faults }
    ensures spared { IsRefusal result → out.new ≡ out.old }
{
    match text {
        Ok(text) => match out.put(&text) {
            Ok(()) => Status::Ok,
            Err(_) => Status::WriteFault,
        },
        Err(status) => status,
    }
}

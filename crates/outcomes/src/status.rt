//! How a command ends.

use heap_walker::Weight;
use page_check::Refusal;

/// How a command ends. The number of each is the exit status of the program.
#[derive(Clone, Copy, PartialEq, Eq)]
pub enum Status {
    /// 0: the whole text was written.
    Ok,
    /// 1: the page has more than 16,777,216 bytes, or is refused for this cause.
    PageRefused(Option<Refusal>),
    /// 2: the words are no command line.
    Usage,
    /// 3: the event file has more than 4,194,304 bytes or is no JSON array (0), or its item of this number,
    /// counted from 1, is the first that is no event or is one too many.
    EventsRefused(u32),
    /// 4: a file could not be read.
    ReadFault,
    /// 5: the output could not be written.
    WriteFault,
    /// 6: the page has more things or more text than a saved page may have, and so much they are.
    TooLarge(Weight),
    /// 7: memory ran out.
    OutOfMemory,
    /// 8: the keeper of sessions failed.
    KeeperFault,
    /// 9: there is no session of this name and version.
    NoSession,
    /// 11: the name has a session of the last version.
    VersionsUsed,
}

impl Status {
    ghost use Rattle.std.specs.Prelude.{◌≡◌};
    ghost use Rattle.outcomes.specs.Status.{exit_status_of};

    /// The exit status.
    pub fn code(self) -> u8
        ensures { result ≡ exit_status_of self }
    {
        match self {
            Status::Ok => 0,
            Status::PageRefused(_) => 1,
            Status::Usage => 2,
            Status::EventsRefused(_) => 3,
            Status::ReadFault => 4,
            Status::WriteFault => 5,
            Status::TooLarge(_) => 6,
            Status::OutOfMemory => 7,
            Status::KeeperFault => 8,
            Status::NoSession => 9,
            Status::VersionsUsed => 11,
        }
    }
}

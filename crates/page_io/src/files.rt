//! Files by name.

ghost use Rattle.std.specs.Prelude.{◌≡◌, ℕ, List, IfOk, IfErr};
ghost use Rattle.page_io.specs.Content.{IsContent, Allows, KeepsFailed};
ghost use Rattle.page_io.specs.Faults.{CountsFaults};
ghost use Rattle.page_io.specs.Seen.{FilesSeen};

use std::alloc::{AllocError, Global};
use thiserror::Error;

/// Why a read gave no bytes.
#[derive(Clone, Copy, Debug, PartialEq, Eq, Error)]
pub enum ReadFault {
    /// The read failed, or there is no content under the name.
    #[error("the file cannot be read")]
    Failed,
    /// The content has more bytes than the limit.
    #[error("the file is too long")]
    TooLong,
    /// Memory ran out.
    #[error("out of memory")]
    OutOfMemory,
}

impl From<AllocError> for ReadFault {
    ghost use Rattle.std.specs.Prelude.{◌≡◌};
    ghost use Rattle.page_io.specs.declared.files.ReadFault.TheVariants.{OutOfMemory};

    ghost from_gives = { λ _ fault. fault ≡ OutOfMemory };

    fn from(_error: AllocError) -> ReadFault {
        ReadFault::OutOfMemory
    }
}

/// Files that are read by their names. Contents never change.
pub trait Files {
    /// What each name holds, where that is told: no content, or its bytes; how many reads failed, and the name of the
    /// last one that answered `Failed`.
    ghost seen: { Self → FilesSeen };

    /// The whole content of a file, which has at most `limit` bytes.
    ///
    /// # Errors
    ///
    /// `Failed` where the read failed, which the count shows, or where nothing is held under the name;
    /// `TooLong` where the read did not fail and the content has more than `limit` bytes;
    /// `OutOfMemory` where memory ran out.
    fn read(&mut self, alloc: Global, name: &str, limit: u64) -> Result<Vec<u8>, ReadFault>
        ensures bytes { IfOk result
            (λ v. IsContent ((seen self.old).content name.now) limit v.items) }
        ensures fault { IfErr result (λ e. Allows ((seen self.old).content name.now) limit e) }
        ensures same { (n : List ℕ) → (seen self.new).content n ≡ (seen self.old).content n }
        ensures counts { CountsFaults ReadFault.Failed
            (seen self.old).faults (seen self.new).faults result }
        ensures name { KeepsFailed (seen self.old).failed (seen self.new).failed name.now result };
}

//! Why a page is not saved.

ghost use Rattle.std.specs.Prelude.{◌≡◌};
ghost use Rattle.migrate.specs.Moving.{unsaved_status};

use heap_walker::Weight;
use js_core::OutOfMemory;
use outcomes::Status;

/// Why a page is not saved.
#[derive(Clone, Copy, PartialEq, Eq)]
pub enum Unsaved {
    /// It has more than 75,000 things or more than 4,194,304 bytes of text, and so much they are.
    TooLarge(Weight),
    /// The output could not be written.
    WriteFault,
    /// Memory ran out.
    OutOfMemory,
}

impl Unsaved {
    /// How a command ends for it.
    pub fn status(self) -> Status
        ensures { result ≡ unsaved_status self }
    {
        match self {
            Unsaved::TooLarge(weight) => Status::TooLarge(weight),
            Unsaved::WriteFault => Status::WriteFault,
            Unsaved::OutOfMemory => Status::OutOfMemory,
        }
    }
}

impl From<OutOfMemory> for Unsaved {
    ghost use Rattle.std.specs.Prelude.{◌≡◌};
    ghost use Rattle.migrate.specs.declared.unsaved.Unsaved.TheVariants.{OutOfMemory};

    ghost from_gives = { λ _ fault. fault ≡ OutOfMemory };

    fn from(_error: OutOfMemory) -> Unsaved {
        Unsaved::OutOfMemory
    }
}

//! Why a call on the heap did not do what it was asked.

ghost use Rattle.std.specs.Prelude.{◌≡◌};
ghost use Rattle.object_heap.specs.Refused.{throw_of};

use js_core::Failure;
use js_values::Throw;

/// Why a call on the heap did not do what it was asked: the cause is the error by which the language rejects it. Where memory ran
/// out, nothing has changed.
pub type HeapFault = Failure<Throw>;

/// What was asked of a property where it is rejected.
#[derive(Clone, Copy, PartialEq, Eq)]
pub enum Refused {
    Put,
    Define,
    Delete,
}

impl Refused {
    /// The error that is thrown.
    pub fn throw(self) -> Throw
        ensures { result ≡ throw_of self }
    {
        match self {
            Refused::Put => Throw::CannotSet,
            Refused::Define => Throw::CannotDefine,
            Refused::Delete => Throw::CannotDelete,
        }
    }
}

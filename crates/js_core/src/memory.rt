//! Want of memory, and calls that fail for a cause or for that.

use std::alloc::{AllocError, AllocFailed};

/// Memory ran out. It is the one answer that no clause ties to a cause.
#[derive(Clone, Copy, PartialEq, Eq)]
pub struct OutOfMemory;

impl From<AllocError> for OutOfMemory {
    fn from(_error: AllocError) -> OutOfMemory {
        OutOfMemory
    }
}

impl<T: Drop> From<AllocFailed<T>> for OutOfMemory {
    fn from(_error: AllocFailed<T>) -> OutOfMemory {
        OutOfMemory
    }
}

/// Why a call gave nothing: a cause of its own, of which clauses say when it comes, or want of memory.
#[derive(Clone, Copy, PartialEq, Eq)]
pub enum Failure<C> {
    /// The call's own cause.
    Cause(C),
    /// Memory ran out.
    OutOfMemory,
}

impl<C> From<OutOfMemory> for Failure<C> {
    ghost use Rattle.std.specs.Prelude.{◌≡◌};
    ghost use Rattle.js_core.specs.declared.memory.Failure.TheVariants.{OutOfMemory as WantOfMemory};

    ghost from_gives = { λ _ e. e ≡ WantOfMemory };

    fn from(_: OutOfMemory) -> Failure<C> {
        Failure::OutOfMemory
    }
}

impl<C> From<AllocError> for Failure<C> {
    ghost use Rattle.std.specs.Prelude.{◌≡◌};
    ghost use Rattle.js_core.specs.declared.memory.Failure.TheVariants.{OutOfMemory as WantOfMemory};

    ghost from_gives = { λ _ e. e ≡ WantOfMemory };

    fn from(_: AllocError) -> Failure<C> {
        Failure::OutOfMemory
    }
}

impl<C, T: Drop> From<AllocFailed<T>> for Failure<C> {
    ghost use Rattle.std.specs.Prelude.{◌≡◌};
    ghost use Rattle.js_core.specs.declared.memory.Failure.TheVariants.{OutOfMemory as WantOfMemory};

    ghost from_gives = { λ _ e. e ≡ WantOfMemory };

    fn from(_: AllocFailed<T>) -> Failure<C> {
        Failure::OutOfMemory
    }
}

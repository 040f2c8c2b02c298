//! Why a page is not saved.

use heap_walker::Weight;
use js_core::Failure;

/// What stands in the way of saving a page.
#[derive(Clone, Copy, PartialEq, Eq)]
pub enum NotSaved {
    /// It has more things than a saved page may have.
    TooMany(Weight),
    /// It has more text than a saved page may have.
    TooLong(Weight),
    /// The output failed, after a prefix of the page was put.
    WriteFault,
}

/// Why a page is not saved, or not whole: its cause, or out of memory, after a prefix of the page was put or nothing.
pub type SaveFault = Failure<NotSaved>;

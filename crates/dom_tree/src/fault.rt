//! Why a call on nodes did not do what it was asked.

use js_core::Failure;

/// What is wrong with what a call on nodes was asked (DOM Level 2 Core, section 1.2, DOMException).
#[derive(Clone, Copy, PartialEq, Eq)]
pub enum DomError {
    /// HIERARCHY_REQUEST_ERR: the child may not stand under the parent.
    Hierarchy,
    /// NOT_FOUND_ERR: the node is no child of the parent.
    NotFound,
    /// INVALID_CHARACTER_ERR: what was given as a name is none.
    BadName,
}

/// Why a call that takes memory did not do what it was asked: an error, or want of memory, after which nothing has changed.
pub type DomFault = Failure<DomError>;

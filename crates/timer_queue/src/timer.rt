//! Timers.

use js_values::ObjId;

/// A live timer.
#[derive(Clone, Copy, PartialEq, Eq)]
pub struct Live {
    /// The number by which a page knows the timer, above 0.
    pub id: u32,
    /// The moment at which its function is called, in milliseconds.
    pub due: u64,
    /// The time from one call to the next, in milliseconds, of an interval; None of a timeout.
    pub period: Option<u64>,
    /// The function.
    pub call: ObjId,
}

//! What is left to a task, and what a step leads to.

use crate::frame::{Begin, BoxedFrame};
use page_meaning::Signal;

/// The steps that are left, and the functions that may yet be active.
#[derive(Clone, Copy)]
pub struct Meter {
    pub steps: u64,
    pub depth: u32,
}

/// What a step leads to.
#[derive(Drop)]
pub enum Next {
    /// It ends so.
    Give(Signal),
    /// The frame goes on with this end at once.
    Go(BoxedFrame, Signal),
    /// This runs in its place.
    Enter(Begin),
    /// This runs, and the frame waits for its end.
    Then(BoxedFrame, Begin),
    /// A step was to be taken, and none was left.
    Stopped,
}

//! Host events.

use js_core::Units;

/// What the host asks of a page.
#[derive(PartialEq, Eq, Drop)]
pub enum Event {
    /// Dispatch an event of this type at the element with this id.
    Fire {
        /// The type of the event.
        kind: Units,
        /// The id of the element.
        at: Units,
        /// Whether the event bubbles.
        bubbles: bool,
        /// Whether the event can be cancelled.
        cancelable: bool,
    },
    /// Where the element with this id is an input or a textarea, set its value to the text; then dispatch `input` at it.
    Input {
        /// The new value.
        text: Units,
        /// The id of the element.
        at: Units,
    },
    /// Let so much time pass, at most 1,000,000,000 milliseconds, and call the functions of the timers that come due.
    Tick(u64),
    /// The call `F()` of the global name F, with `this` undefined.
    Call(Units),
    /// Put out the text of the document.
    Dom,
}

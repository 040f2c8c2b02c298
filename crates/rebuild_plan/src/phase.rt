//! The phases of a plan.

/// A phase in which each object that has something to say of it has its statements, after all of them were made.
#[derive(Clone, Copy, PartialEq, Eq)]
pub enum Phase {
    /// Nodes get their children.
    Children,
    /// Nodes get their attributes and set values.
    Contents,
    /// Events are initialised and dispatched.
    Events,
    /// Nodes get their listeners.
    Listeners,
    /// Properties are defined.
    Properties,
    /// Objects get no new properties any more.
    Ends,
}

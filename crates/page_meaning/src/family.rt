//! Which built-in functions act alike.

/// How a built-in function acts.
#[derive(Clone, Copy)]
pub enum RowFamily {
    /// At once, on objects and values.
    Object,
    /// By a call of another function, or it makes one.
    Function,
    /// At once but for index turns, on an array.
    List,
    /// By calls for the elements of an array.
    Visit,
    /// At once, on texts and numbers.
    Text,
    /// At once, on nodes and events.
    Node,
    /// At once, on timers.
    Timer,
    /// By the calls of listeners.
    Dispatch,
}

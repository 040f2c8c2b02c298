//! What is noted of a function.

use js_core::Units;

/// What is noted of a function's code, so that it is told without going through it.
#[derive(Drop)]
pub struct Notes {
    /// The names of the variables that it needs from the scopes round it, in the order of their uses (ECMA-262 5.1 section 10.2).
    pub needed: Vec<Units>,
    /// How many bytes it has as it is printed as an expression, with its name where it is held with it (section 13).
    pub printed: u64,
}

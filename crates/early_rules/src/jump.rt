//! The statements that jump.

/// A kind of statement that leaves those round it (ECMA-262 5.1 sections 12.7 to 12.9).
#[derive(Clone, Copy, PartialEq, Eq)]
pub enum Jump {
    Return,
    Break,
    Continue,
}

//! The signs of the grammar: punctuators, and the reserved words that stand in its forms.

use js_core::{Keyword, Punct};

/// What tells one form from another.
#[derive(Clone, Copy, PartialEq, Eq)]
pub enum Sign {
    /// A punctuator (ECMA-262 5.1 section 7.7).
    Mark(Punct),
    /// A reserved word (section 7.6.1).
    Word(Keyword),
}

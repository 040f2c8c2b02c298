//! The lexemes that are printed: the tokens of ECMA-262 5.1 section 7, with reserved words apart from names.

use js_core::{Keyword, Punct, Units, Whole};

/// A token to be printed.
#[derive(Drop)]
pub enum Lexeme {
    Keyword(Keyword),
    /// An identifier, or a name after a dot.
    Name(Units),
    /// A numeric literal's value.
    Number(Whole),
    /// A string literal's value.
    Text(Units),
    Punct(Punct),
}

//! The tokens of a script's text.
#![tactic(auto)]

mod characters;
mod directives;
mod fault;
mod laws;
mod lexing;
mod numbers;
mod punctuators;
mod separators;
mod strings;
mod words;

pub use directives::{punct_continues, strict, word_continues};
pub use fault::{LexFault, NotTokens};
pub use laws::{law_one_reading, law_tokens_are_longest};
pub use lexing::tokens;

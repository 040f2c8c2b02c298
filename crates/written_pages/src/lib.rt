//! What a page reaches can be written: a law of the meaning alone.
#![tactic(auto)]

mod laws;

pub use laws::{law_pages_are_literal, law_pages_are_written};

//! The tokens of a page's text.
#![tactic(auto)]

mod attributes;
mod characters;
mod fault;
mod laws;
mod opening;
mod references;
mod tags;
mod token;
mod tokens;

pub use fault::{NotTokens, TokenFault};
pub use laws::{law_one_reading, law_tokens_stay};
pub use token::{AttributeList, PageToken, RawText, Tag};
pub use tokens::tokens_of;

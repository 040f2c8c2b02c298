//! The path of names by which a script reaches each built-in object of a page (ECMA-262 5.1 section 15), as a saved page writes it.
#![tactic(auto)]

mod laws;
mod table;

pub use laws::{law_paths_are_counted, law_paths_are_short, law_paths_lead};
pub use table::path;

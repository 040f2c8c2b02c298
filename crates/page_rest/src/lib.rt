//! Pages between two events: laws on the meaning of scripts.
#![tactic(auto)]

mod laws;

pub use laws::{law_functions_are_asked, law_pages_have_walks, law_pages_rest};

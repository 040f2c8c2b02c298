//! When two heaps mean the same, and what keeps it.
#![tactic(auto)]

mod laws;

pub use laws::{law_environments_agree, law_objects_agree};

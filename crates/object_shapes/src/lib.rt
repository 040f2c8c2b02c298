//! What each object of a page keeps from its maker on: laws on the meaning of scripts.
#![tactic(auto)]

mod laws;

pub use laws::{law_built_ins_are_counted, law_shapes_stay};

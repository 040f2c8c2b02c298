//! Numbers and texts of the meaning that can be written: which values, trees, nodes and pages have such alone, and what keeps them so.
#![tactic(auto)]

mod laws;

pub use laws::{law_pristine_is_literal, law_reads_are_literal, law_steps_stay_literal};

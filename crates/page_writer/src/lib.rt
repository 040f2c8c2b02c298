//! The text of a saved page.
#![tactic(auto)]

mod laws;
mod literals;
mod makers;
mod nodes;
mod references;
mod save_fault;
mod statements;
mod timers;
mod values;
mod writing;

pub use laws::{law_pages_are_short, law_saved_scripts_are_form, law_statements_are_syntax};
pub use save_fault::{NotSaved, SaveFault};
pub use writing::{write_state, write_walked};

//! The names of the global object's built-in properties.
#![tactic(auto)]

mod laws;
mod names;

pub use laws::law_worked_names;
pub use names::is_global_name;

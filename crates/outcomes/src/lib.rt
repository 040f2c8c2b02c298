//! How commands end: statuses and their notes, stages, and what a command is held to.
#![tactic(auto)]

mod notes;
mod numbers;
mod putting;
mod status;

pub use notes::write_note;
pub use numbers::push_number;
pub use putting::put_text;
pub use status::Status;

//! What the program does: the top call `run`, over files, an output, notes and a keeper.
#![tactic(auto)]

mod command;
mod laws;
mod program;
mod save;
mod session_words;
mod system;

pub use command::Command;
pub use laws::{law_little_pages_are_moved, law_one_ending};
pub use outcomes::{Status, write_note};
pub use program::run;
pub use system::{run_on_system, tell_out_of_memory};

//! The functions of a script as flat tables: for each function its nodes by number, each with its kind and the numbers of
//! its parts.
#![tactic(auto)]

mod code;
mod entry;
mod kind;
mod notes;

pub use code::{Declared, FunctionCode};
pub use entry::Entry;
pub use kind::{Kind, Names};
pub use notes::Notes;

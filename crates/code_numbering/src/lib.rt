//! How the tables of a script's functions are made from its tree: the numbering of nodes.
#![tactic(auto)]

mod expressions;
mod functions;
mod notes;
mod rows;
mod shallow;
mod statements;
mod variables;

pub use functions::script_code;

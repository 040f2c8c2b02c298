//! The machine of the whole language: a stack of frames that runs a task of a page, step by step (ECMA-262 5.1 sections 10 to 14).
#![tactic(auto)]

mod machine;
mod steps;
mod tasks;

pub use machine::{End, run};
pub use tasks::{Task, run_task};

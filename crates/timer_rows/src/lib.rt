//! The functions of timers (HTML, timers).
#![tactic(auto)]

mod rows;

pub use rows::row;

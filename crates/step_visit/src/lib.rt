//! Visits of arrays: the built-in functions that call back for each element (ECMA-262 5.1 sections 15.4.4.16 to 15.4.4.21).
#![tactic(auto)]

mod advance;
mod finding;
mod stopping;
mod telling;
mod visits;

pub use stopping::stop;
pub use visits::{begin_visit, go_visit};

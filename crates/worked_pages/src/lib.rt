//! Worked scripts and pages, as theorems on what they mean: each puts out the lines that the rules give it.
#![tactic(auto)]

mod laws;

pub use laws::{
    law_worked_expressions, law_worked_objects, law_worked_pages, law_worked_statements,
};

//! The steps of statements (ECMA-262 5.1 section 12).
#![tactic(auto)]

mod again;
mod blocks;
mod cases;
mod choices;
mod each;
mod ends;
mod loops;
mod statements;
mod turns;

pub use cases::go_case;
pub use each::go_each;
pub use statements::{begin_statement, go_statement};

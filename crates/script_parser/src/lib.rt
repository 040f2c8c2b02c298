//! The code that reads statements and whole scripts (ECMA-262 5.1 sections 12 to 14): it equals the reader of `js_grammar`
//! function by function.
#![tactic(auto)]

mod control;
mod ending;
mod for_loop;
mod functions;
mod inner;
mod jump;
mod loops;
mod node;
mod phrase;
mod reading;
mod statement;
mod switch;
mod try_catch;
mod variables;

pub use reading::script;

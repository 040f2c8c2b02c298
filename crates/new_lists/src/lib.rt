//! Arrays that built-in functions make (ECMA-262 5.1 sections 15.4.2, 15.2.3.4 and 15.2.3.14).
#![tactic(auto)]

mod lists;

pub use lists::{list_from, new_texts};

//! Which bytes are accepted as a page.
//!
//! The bytes are to be a page (`page_reader`). Its scripts are read and checked in document order, and the first cause of
//! refusal is the answer (`specs/Accept.antt`).
#![tactic(auto)]

mod acceptance;
mod laws;
mod page;
mod script;

pub use acceptance::{Accepted, accept};
pub use laws::law_one_answer;
pub use page::{AcceptFault, CheckedPage, Kind, Refusal};

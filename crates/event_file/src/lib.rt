//! Event files: what the host asks of a page, as JSON.
#![tactic(auto)]

mod fault;
mod item;
mod kind;
mod laws;
mod reading;

pub use fault::{EventFault, NotEvents};
pub use laws::law_numbers_items;
pub use reading::events;

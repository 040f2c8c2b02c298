//! Generated pages, and lists of events for them: of any size, and the same at each run.
#![tactic(auto)]

mod generator;
mod made_events;
mod made_page;
mod text;

pub use made_events::event_list;
pub use made_page::page;

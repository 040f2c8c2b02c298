//! The statements that rebuild a page.
#![tactic(auto)]

mod events;
mod laws;
mod makers;
mod marks;
mod moved;
mod nodes;
mod phase;
mod planning;
mod properties;
mod statement;
mod timers;

pub use laws::{law_plans_are_few, law_plans_stand};
pub use phase::Phase;
pub use planning::plan;
pub use statement::{Maker, Rebuild};

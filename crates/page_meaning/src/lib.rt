//! What scripts, host events and pages mean: the store of a page, the acts of which all its parts are made, and the meaning of each
//! expression, statement, call and task as definitions over pure trees (ECMA-262 5.1 sections 8 to 15).
#![tactic(auto)]

mod family;
mod laws;
mod reference;
mod signal;
mod visit;

pub use family::RowFamily;
pub use laws::{law_built_ins_by_age, law_heaps_stay_sound, law_lines_grow, law_tasks_keep};
pub use reference::Reference;
pub use signal::Signal;
pub use visit::Visit;

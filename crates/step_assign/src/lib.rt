//! The steps of assignments (ECMA-262 5.1 sections 11.3, 11.4.4, 11.4.5, 11.13 and 12.2), and of the targets of a for-in (section 12.6.4).
#![tactic(auto)]

mod changes;
mod named;
mod puts;
mod targets;
mod updates;

pub use changes::go_change;
pub use named::{begin_named, go_name};
pub use targets::{begin_target, go_target};

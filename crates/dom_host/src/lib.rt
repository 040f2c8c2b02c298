//! What the prototypes of nodes and events hold, but for dispatch (DOM Level 2 Core and Events).
#![tactic(auto)]

mod attributes;
mod events;
mod judged;
mod nodes;
mod rows;

pub use rows::row;

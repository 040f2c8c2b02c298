//! Sessions: an accepted page that is loaded, and the host events that act on it.
#![tactic(auto)]

mod running;

pub use running::{Session, load};

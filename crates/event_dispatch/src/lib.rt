//! The dispatch of events (DOM Level 2 Events, section 1.2).
#![tactic(auto)]

mod dispatch;

pub use dispatch::{begin_deliver, begin_row, go_deliver};

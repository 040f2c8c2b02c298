//! Pages and events that commands read, and the commands that only read: `check`, `instrument` and `replay`.
#![tactic(auto)]

mod checking;
mod laws;
mod opening;
mod reading;
mod replaying;

pub use checking::check;
pub use laws::law_reading_is_lawful;
pub use opening::instrument;
pub use reading::{accept_page, read_events, read_page, read_session};
pub use replaying::{replay, run_page};

//! What the host keeps for a page: its nodes, each with its object, the listeners, the timers and the clock.
#![tactic(auto)]

mod host;
mod host_name;
mod laws;
mod listener;
mod listening;
mod making;
mod nodes;
mod path;
mod reading;
mod timing;
mod writing;

pub use host::PageHost;
pub use host_name::HostName;
pub use laws::law_hosts_stay_sound;
pub use listener::Listener;
pub use path::{Phase, Place};
pub use writing::{folds_to_handler, is_handler};

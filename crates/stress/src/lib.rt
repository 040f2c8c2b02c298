//! Generated pages that are run, and saved and moved after half of their events: `stress`.
#![tactic(auto)]

mod laws;
mod measuring;

pub use laws::law_stress_is_lawful;
pub use measuring::stress;

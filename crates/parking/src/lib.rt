//! Sessions that are kept: `park`, `fetch`, `parked` and `drop`.
#![tactic(auto)]

mod laws;
mod parking;
mod row_lines;

pub use laws::law_parking_is_lawful;
pub use parking::{LAST_VERSION, drop_row, fetch, park, parked};

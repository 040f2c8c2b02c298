//! Sessions that are parked in a database file.
#![tactic(auto)]

mod database;
mod keeper;

pub use keeper::SqliteKeeper;

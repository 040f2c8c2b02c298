//! Pages with opened scopes.
#![tactic(auto)]

mod laws;
mod opening;

pub use laws::{law_opened_pages_are_accepted, law_opened_pages_put_out_the_same};
pub use opening::{open_checked, open_page};

//! What of a page can still be reached, and what it weighs.
#![tactic(auto)]

mod heard;
mod laws;
mod links;
mod needs;
mod nodes;
mod reached;
mod weight;

pub use heard::{Group, Heard};
pub use laws::law_walks_are_same;
pub use needs::{Needs, needs_of};
pub use nodes::{children, parent};
pub use reached::{Walked, walk};
pub use weight::{Weight, greatest, weigh, weight_of};

/// How many built-in objects there are, the global object among them. The document is the next one, and all other objects are younger.
pub const BUILT_IN_COUNT: u64 = 122;

/// The place of the first thing in a saved page, after those of the built-in objects and the document's.
pub const FIRST_THING: u64 = 123;

//! That generated pages are accepted, and that their lists of events are read.
#![tactic(auto)]

mod laws;

pub use laws::{
    law_generated_files_fit, law_generated_lists_are_read, law_generated_pages_are_accepted,
};

//! A moved page: laws on the meaning of its text.
#![tactic(auto)]

mod laws;

pub use laws::{
    law_accepted_pages_are_plain, law_accepted_scripts_are_in_form, law_moved_pages_go_on,
    law_moves_join, law_saved_pages_are_accepted,
};

//! That printed scripts are accepted in form pages.
#![tactic(auto)]

mod laws;

pub use laws::{
    law_accepted_scripts_begin_strict, law_accepted_scripts_have_syntax,
    law_framed_scripts_are_accepted, law_printed_pages_are_accepted,
};

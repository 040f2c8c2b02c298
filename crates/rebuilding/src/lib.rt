//! What holds of rebuilt pages.
//! A saved page, loaded, is the page that was saved: laws on the meaning of its script.
#![tactic(auto)]

mod laws;

pub use laws::{
    law_plans_rebuild, law_rebuilt_pages_go_on, law_saved_again, law_scripts_rebuild,
    law_scripts_take_few_steps, law_statements_run,
};

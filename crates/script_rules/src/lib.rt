//! What is asked of whole scripts: the early rules, the rule of form, and which names their functions use and need.
#![tactic(auto)]

mod broken_rules;
mod form;
mod needs;
mod scope_test;
mod scope_tests;
mod uses;

pub use broken_rules::early;
pub use form::{has_high_function, has_reserved_name, in_form};
pub use needs::needed_variables;
pub use scope_test::ScopeTest;
pub use uses::note_statements;

//! The early rules, and the tests that the nodes of a syntax tree are put to.
#![tactic(auto)]

mod early_rule;
mod jump;
mod jumps;
mod node_test;
mod node_tests;
mod nodes;

pub use early_rule::EarlyRule;
pub use jump::Jump;
pub use jumps::{leaves, strays};
pub use node_test::NodeTest;
pub use nodes::{any_in_code, any_in_script, any_in_statement, any_in_statements};

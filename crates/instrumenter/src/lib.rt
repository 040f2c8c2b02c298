//! Scripts with opened scopes: variables that functions inside capture stand in objects.
#![tactic(auto)]

mod catches;
mod expressions;
mod form_laws;
mod functions;
mod laws;
mod levels;
mod loops;
mod names;
mod pieces;
mod scripts;
mod statements;
mod variables;

pub use form_laws::law_opened_scripts_are_form;
pub use laws::law_opened_scripts_are_low;
pub use scripts::open_scopes;

//! Where a running page finds names: in the environment of the scope that scope analysis finds (ECMA-262 5.1 section 10.2).
#![tactic(auto)]

mod laws;

pub use laws::{
    law_clauses_are_levels, law_functions_are_levels, law_names_are_found, law_own_names_are_bound,
    law_scopes_stay,
};

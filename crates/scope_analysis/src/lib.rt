//! What names a syntax tree declares and uses.
#![tactic(auto)]

mod identifiers;
mod name_tables;
mod name_test;
mod names;
mod use_table;

pub use identifiers::{expression_fits, fits, statement_fits};
pub use name_tables::{bound_table, insert_names, name_table, parameter_table};
pub use name_test::{NameTest, is_reserved};
pub use names::{
    has_repeat, is_among, own_name, push_bound_names, push_declared_names, push_maybe_name,
    push_name, push_names,
};
pub use use_table::{UseTable, note_leaving_clause, note_leaving_function, note_use};

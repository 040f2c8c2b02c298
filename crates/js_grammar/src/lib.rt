//! The grammar of scripts, and a reader of it on plain lists.
//!
//! The grammar is that of ECMA-262 5.1 annex A.3 to A.5 without regular expressions, accessors, labels, `with`,
//! `debugger` and initialisers before `in`; function declarations stand at the top of a script or a function's body alone.
//! It is a relation between a list of tokens and a pure tree (`Derives` in `specs/Scripts.antt`): each phrase is a small
//! type of derivations (`specs/Expressions.antt`, `specs/Statements.antt`), with what stands inside it as a parameter,
//! and these are tied by how deep they nest. `specs/Endings.antt` says where a semicolon may be missing.
//!
//! The reader goes through the tokens once, from the left, with one token of lookahead (`read_script` in
//! `specs/ScriptReader.antt`). It refuses a tree that is higher than a limit as soon as that is built. A parser equals it
//! function by function. `laws` says that reading is the grammar.
#![tactic(auto)]

mod ending;
mod laws;
mod operators;
mod sign;

pub use ending::{Ending, is_right_brace};
pub use laws::{
    law_derived_trees_are_syntax, law_examples_are_read, law_line_ends_are_harmless,
    law_one_script, law_operators_and_suffixes_go_on, law_reading_is_the_grammar,
};
pub use operators::{Infix, Level, Prefix};
pub use sign::Sign;

//! The printing of syntax trees: first the list of lexemes of a tree, then the text of that list. `laws` says of each half
//! that it is read back, and `print` that the printed text of a script is read as the same script again.
#![tactic(auto)]

mod expressions;
mod laws;
mod lengths;
mod lexeme;
mod operators;
mod place;
mod printing;
mod pushing;
mod spelling;
mod statements;
mod strings;

pub use expressions::{push_code, push_unnamed_code};
pub use laws::{
    law_lined_scripts_are_read_again, law_printed_lexemes_derive_the_tree,
    law_printed_scripts_are_read_again, law_printed_text_has_no_control_character,
    law_printed_text_has_no_end_tag, law_printed_text_has_these_tokens, law_printed_text_is_ascii,
    law_syntax_is_what_tokens_have, law_tokens_can_be_written,
};
pub use lengths::{code_length, unnamed_length};
pub use lexeme::Lexeme;
pub use printing::{print, print_code, print_unnamed};
pub use pushing::{push_keyword, push_lexeme, push_name, push_punct, push_text};
pub use spelling::push_lexemes;

//! The base of the product: texts of 16-bit units, whole numbers, tokens and how they are written, syntax trees and limits.
#![tactic(auto)]

mod ascii;
mod characters;
mod height;
mod keyword;
mod laws;
mod limits;
mod line_text;
mod memory;
mod operators;
mod syntax;
mod token;
mod units;
mod whole;

pub use ascii::{ascii_text, push_ascii};
pub use characters::{is_line_end, is_white_space};
pub use height::{exprs_height, fields_height, holes_height};
pub use keyword::{Keyword, is_unused_word, keyword_of};
pub use laws::{law_worked_numbers, law_worked_texts, law_worked_words};
pub use limits::{
    DEPTH_LIMIT, EVENT_FILE_LIMIT, EVENT_LIMIT, FORM_HEIGHT_LIMIT, FUNCTION_HEIGHT_LIMIT,
    HEIGHT_LIMIT, PAGE_LIMIT, PLAIN_HEIGHT_LIMIT, SAVED_TEXT_LIMIT, SAVED_THINGS_LIMIT, STEP_LIMIT,
    TEXT_LIMIT, TICK_LIMIT, TIMER_LIMIT,
};
pub use line_text::{push_line_text, push_unit_escape, truncate_on_error};
pub use memory::{Failure, OutOfMemory};
pub use operators::{BinaryOp, UnaryOp};
pub use syntax::{
    Case, Catch, Code, Declarator, Expr, ExprNode, For, ForInit, If, Script, Stmt, StmtNode, Try,
};
pub use token::{Punct, Token, TokenKind};
pub use units::Units;
pub use whole::Whole;

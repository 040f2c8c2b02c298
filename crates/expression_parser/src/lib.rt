//! The code that reads expressions (ECMA-262 5.1 section 11): it equals the reader of `js_grammar` function by function.
//!
//! A `Cursor` is a place in a list of tokens. `Grammar` has a method for each phrase; what stands inside a phrase is read by
//! a type that meets `Inside`, so that each method stands alone and the only recursion is in the crate that reads scripts.
//! `Depth` keeps that it reads so, to a depth. What repeats stands in `lists`, over the reader of an item. `nodes` builds
//! trees and refuses those that are too high.
#![tactic(auto)]

mod assignment;
mod binary;
mod cursor;
mod depth;
mod fault;
mod grammar;
mod groups;
mod height;
mod inside;
mod left;
mod lists;
mod nesting;
mod nodes;
mod operators;
mod phrase;
mod primary;
mod unary;

pub use cursor::Cursor;
pub use depth::Depth;
pub use fault::{NotScript, ParseFault};
pub use grammar::Grammar;
pub use height::check_height;
pub use inside::Inside;
pub use lists::{many, separated};
pub use nesting::Nesting;
pub use operators::prefix_of;
pub use phrase::{closed_group, expression_at_level, sequence};

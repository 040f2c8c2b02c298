//! Nodes of a document (DOM Level 2 Core): trees of elements, texts and comments, with the document as the first node.
#![tactic(auto)]

mod attributes;
mod content;
mod dom;
mod fault;
mod insert;
mod laws;
mod links;
mod make;
mod names;
mod text;
mod walk;

pub use attributes::Attributes;
pub use content::{Content, Kind};
pub use dom::Dom;
pub use fault::{DomError, DomFault};
pub use laws::{law_insertion, law_replacement, law_texts, law_trees};
pub use names::is_name;
pub use text::is_void;

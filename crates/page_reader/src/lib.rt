//! The pages that bytes are.
#![tactic(auto)]

mod elements;
mod fault;
mod laws;
mod nodes;
mod page;
mod places;
mod reader;
mod replacing;
mod text;
mod tree;

pub use fault::{NotPage, PageError, PageFault, TreeFault};
pub use laws::{
    law_fronts, law_one_page, law_one_reading, law_replaced_scripts, law_script_pages,
    law_script_units, law_worked_replacing,
};
pub use page::{Page, Place, ScriptText};
pub use reader::read_page;
pub use replacing::{FORM_MARK, replace_scripts};
pub use tree::page_of_tokens;

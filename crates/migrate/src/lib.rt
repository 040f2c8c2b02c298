//! Pages that are moved: a page after events is saved, and what is saved goes on as the page.
#![tactic(auto)]

mod gathered;
mod laws;
mod saving;
mod unsaved;

pub use gathered::{saved_text, state_text};
pub use laws::{
    law_any_moves_join, law_moving_is_lawful, law_saved_pages_follow, law_saved_pages_move,
};
pub use saving::{run_opened, save_page, write_state};
pub use unsaved::Unsaved;

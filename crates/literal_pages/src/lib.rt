//! That what accepted pages and files of events hold can be written, and so what such a page reaches.
#![tactic(auto)]

mod laws;

pub use laws::{
    law_accepted_pages_are_literal, law_accepted_pages_are_written, law_read_events_are_literal,
    law_read_pages_are_written,
};

//! Two pages that agree go on agreeing: laws on the meaning of scripts.
#![tactic(auto)]

mod laws;

pub use laws::{
    law_events_agree, law_opened_pages_agree, law_pages_agree, law_plain_pages_agree,
    law_rows_agree, law_standing_pages_agree,
};

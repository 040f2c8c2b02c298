//! What holds where two pages at rest agree.
//! Two pages that agree go on alike: laws on the meaning of pages, for whatever compares two of them.
#![tactic(auto)]

mod laws;

pub use laws::{law_agreeing_pages_go_on, law_equal_compacts_agree, law_rebuilt_pages_agree};

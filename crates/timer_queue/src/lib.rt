//! The queue of a page's timers (HTML, timers): the live ones in starting order, and which of them is due.
#![tactic(auto)]

mod ids;
mod laws;
mod queue;
mod timer;

pub use laws::{
    law_ids_are_distinct, law_takings_are_firings, law_timers_stay_timely, law_worked_queue,
};
pub use queue::Queue;
pub use timer::Live;

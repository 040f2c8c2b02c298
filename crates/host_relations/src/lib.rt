//! When the hosts of two pages mean the same, and what keeps it.
#![tactic(auto)]

mod laws;

pub use laws::{
    law_appends_carry, law_attributes, law_equal_nodes, law_event_ways, law_host_names, law_hosts,
    law_listeners_again, law_new_nodes, law_nodes, law_timers, law_timers_again,
};

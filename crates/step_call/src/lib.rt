//! The steps of calls and constructions (ECMA-262 5.1 sections 11.2.2, 11.2.3, 13.2.1, 13.2.2 and 15.3.4.5).
#![tactic(auto)]

mod arguments;
mod bodies;
mod callees;
mod calls;
mod ends;
mod functions;
mod natives;

pub use callees::go_call;
pub use calls::begin_call;
pub use ends::{call_end, go_called};

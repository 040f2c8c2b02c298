//! Frames of the machine: what waits for a part of a script or begins one, how much there is yet to do, and what a step says.
#![tactic(auto)]

mod frame;
mod laws;
mod meter;
mod rounds;
mod spot;

pub use frame::{
    Begin, BoxedCall, BoxedFrame, CallFrame, CalledFrame, CaseFrame, DeliverFrame, EachFrame,
    ExprFrame, Frame, Listed, NameFrame, StmtFrame, TargetFrame, VisitFrame, Visited,
};
pub use laws::{law_dispatches, law_loops, law_stacks, law_starts, law_weights};
pub use meter::{Meter, Next};
pub use rounds::{Places, Round};
pub use spot::Spot;

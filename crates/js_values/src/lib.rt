//! What the language's values, its errors and its built-in functions are, what the host asks of a page, and the lines that
//! it puts out.
#![tactic(auto)]

mod built_in;
mod event;
mod ids;
mod laws;
mod line;
mod throw;
mod value;

pub use built_in::BuiltIn;
pub use event::Event;
pub use ids::{EnvId, NodeId, ObjId};
pub use laws::law_worked_lines;
pub use line::{Line, LineKind};
pub use throw::{ErrorKind, Throw};
pub use value::Value;

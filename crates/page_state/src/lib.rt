//! A page while it runs, and what is done to it at once: properties, names, conversions, errors.
#![tactic(auto)]

mod arguments;
mod convert;
mod elements;
mod entry;
mod errors;
mod events;
mod fault;
mod functions;
mod globals;
mod hosting;
mod instances;
mod lines;
mod listing;
mod made;
mod names;
mod nodes;
mod numbers;
mod operators;
mod places;
mod primitives;
mod properties;
mod puts;
mod sight;
mod state;
mod turns;
mod types;
mod updates;

pub use arguments::{argument, arguments_from, values_of};
pub use convert::{number_of, text_of};
pub use elements::{further, index_value};
pub use errors::{error_prototype, small};
pub use fault::Fault;
pub use functions::{built, object_or};
pub use lines::class_name;
pub use places::{
    ARRAY_PROTOTYPE, BOOLEAN_PROTOTYPE, CONSOLE, DOCUMENT, EVENT_PROTOTYPE, FUNCTION_PROTOTYPE,
    MATH, NODE_PROTOTYPE, NUMBER_PROTOTYPE, OBJECT_PROTOTYPE, STRING_PROTOTYPE, WINDOW,
    function_at,
};
pub use primitives::are_short;
pub use properties::own_of_text;
pub use sight::Sight;
pub use state::State;
pub use turns::{Halt, take_turn};

//! The heap of the language: objects with properties, arrays and environments (ECMA-262 5.1 sections 8.10, 8.12, 10.2 and
//! 15.4.5.1).
#![tactic(auto)]

mod absent;
mod array;
mod chain;
mod define;
mod environment;
mod fault;
mod function;
mod heap;
mod index;
mod laws;
mod methods;
mod object;
mod properties;
mod property;
mod values;

pub use fault::HeapFault;
pub use heap::Heap;
pub use index::{array_index, index_name};
pub use laws::{
    law_arrays_are_kept, law_chains_are_walked, law_heaps_are_kept, law_properties_are_kept,
    law_prototypes_are_walked,
};
pub use object::{Class, EventParts};
pub use properties::Properties;
pub use property::{Change, Prop};
pub use values::Values;

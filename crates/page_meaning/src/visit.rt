//! What a visit of an array keeps.

use js_values::{ObjId, Value};

/// What a row that calls back for the elements of an array makes of what the calls give (ECMA-262 5.1 sections 15.4.4.16 to 15.4.4.21).
#[derive(Drop)]
pub enum Visit {
    /// `every`
    Every,
    /// `some`
    Some,
    /// `forEach`
    ForEach,
    /// `map`, with the new array.
    Map(ObjId),
    /// `filter`, with the new array and the number of its elements.
    Filter(ObjId, u64),
    /// `reduce`, with what was accumulated.
    Reduce(Value),
}

//! How a part of a script ends.

use js_values::Value;

/// What a part of a script gives to what waits for it (ECMA-262 5.1 section 8.9). A statement that ends by itself gives
/// undefined, which nothing reads.
#[derive(Drop)]
pub enum Signal {
    /// The value of an expression, or the end of a statement.
    Value(Value),
    /// An exception.
    Thrown(Value),
    /// `return`, with its value.
    Return(Value),
    /// `break`
    Break,
    /// `continue`
    Continue,
}

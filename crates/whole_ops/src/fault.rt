//! Why an operator gives no number.

/// Why an operator on numbers gives none.
#[derive(Clone, Copy, PartialEq, Eq)]
pub enum OpFault {
    /// The exact result is fractional, infinite or past 9,007,199,254,740,991 in size.
    Outside,
}

/// Why `==`, or the number of a value, gives no answer.
#[derive(Clone, Copy, PartialEq, Eq)]
pub enum LooseFault {
    /// The value is an object, or one side of `==` is and the other is a boolean, a number or a string: the object has to
    /// be made a primitive value first.
    NeedsPrimitive,
    /// The value, or one side of `==` where the other is a number or a boolean, is a string that writes a number that is
    /// none of the language's.
    Outside,
}

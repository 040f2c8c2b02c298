//! The values of the language.

ghost use Rattle.std.specs.Prelude.{◌≡◌, IfOk};

use crate::ids::ObjId;
use js_core::{OutOfMemory, Units, Whole};

/// A value of the language (ECMA-262 5.1 section 8).
#[derive(PartialEq, Eq, Drop)]
pub enum Value {
    /// undefined
    Undefined,
    /// null
    Null,
    /// true or false
    Bool(bool),
    /// a number
    Num(Whole),
    /// a string
    Text(Units),
    /// an object, by its place
    Object(ObjId),
}

impl Value {
    /// The same value. A string shares its units.
    pub fn clone(&self) -> Result<Value, OutOfMemory>
        ensures { IfOk result (λ value. value ≡ self.now) }
    {
        match self {
            Value::Undefined => Ok(Value::Undefined),
            Value::Null => Ok(Value::Null),
            Value::Bool(truth) => Ok(Value::Bool(*truth)),
            Value::Num(number) => Ok(Value::Num(*number)),
            Value::Text(text) => Ok(Value::Text(text.clone()?)),
            Value::Object(at) => Ok(Value::Object(*at)),
        }
    }
}

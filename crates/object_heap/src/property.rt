//! Properties and what is asked of them.

ghost use Rattle.std.specs.Prelude.{◌≡◌, IfOk};
ghost use Rattle.object_heap.specs.Property.{fixed, hidden, lasting, same_value};

use js_core::OutOfMemory;
use js_values::Value;

/// A property with its attributes (ECMA-262 5.1 section 8.6.1). There are no accessors.
#[derive(PartialEq, Eq, Drop)]
pub struct Prop {
    pub value: Value,
    pub writable: bool,
    pub enumerable: bool,
    pub configurable: bool,
}

impl Prop {
    /// A property that stays as it is.
    pub fn fixed(value: Value) -> Prop
        ensures { result ≡ fixed value }
    {
        Prop {
            value,
            writable: false,
            enumerable: false,
            configurable: false,
        }
    }

    /// A property that may be written and nothing else.
    pub fn lasting(value: Value) -> Prop
        ensures { result ≡ lasting value }
    {
        Prop {
            value,
            writable: true,
            enumerable: false,
            configurable: false,
        }
    }

    /// A property that may be written and deleted and is not seen.
    pub fn hidden(value: Value) -> Prop
        ensures { result ≡ hidden value }
    {
        Prop {
            value,
            writable: true,
            enumerable: false,
            configurable: true,
        }
    }

    /// The same property. A string shares its units.
    pub fn clone(&self) -> Result<Prop, OutOfMemory>
        ensures { IfOk result (λ prop. prop ≡ self.now) }
    {
        Ok(Prop {
            value: self.value.clone()?,
            writable: self.writable,
            enumerable: self.enumerable,
            configurable: self.configurable,
        })
    }
}

/// What a property is to become: a value for each attribute that is to change or that a new property is to have
/// (a property descriptor, ECMA-262 5.1 section 8.10).
#[derive(Drop)]
pub struct Change {
    pub value: Option<Value>,
    pub writable: Option<bool>,
    pub enumerable: Option<bool>,
    pub configurable: Option<bool>,
}

/// Whether two values are the same (ECMA-262 5.1 section 9.12).
pub fn is_same_value(a: &Value, b: &Value) -> bool
    ensures { result ≡ same_value a.now b.now }
{
    a == b
}

//! Lists of values.

use js_core::OutOfMemory;
use js_values::Value;
use std::alloc::Global;
use std::marker::Model;

/// A list of values, which contracts see as the list.
pub struct Values {
    items: Vec<Value>,
}

// A function of its own, so that the crates above cite it and do not prove it again.
impl Drop for Values {
    fn drop(self) {
        let Values { items: _items } = self;
    }
}

impl Model for Values {
    ghost use Rattle.std.specs.Prelude.{List};
    ghost use Rattle.js_values.specs.declared.value.Value.{Value as OneValue};

    ghost Value = { List OneValue };

    ghost view = { λ v. v.items.items };
}

ghost use Rattle.std.specs.Prelude.{◌≡◌, ◌++◌, ◌∷◌, [], IfOk, OnErr, OnOk, length};

impl Values {
    /// No values.
    pub fn new(alloc: Global) -> Values
        ensures { result ≡ [] }
    {
        Values {
            items: Vec::new(alloc),
        }
    }

    /// These values.
    pub fn of(items: Vec<Value>) -> Values
        ensures { result ≡ items.items }
    {
        Values { items }
    }

    /// The values, without memory.
    pub fn as_slice(&self) -> &[Value]
        ensures { result.now ≡ self.now }
    {
        self.items.as_slice()
    }

    /// The number of values.
    pub fn len(&self) -> usize
        ensures { result ≡ length self.now }
    {
        self.items.len()
    }

    /// One more value, which is the last. After an error nothing has changed.
    pub fn push(&mut self, value: Value) -> Result<(), OutOfMemory>
        ensures ok { OnOk result (self.new ≡ self.old ++ value ∷ []) }
        ensures err { OnErr result (self.new ≡ self.old) }
    {
        self.items.push(value)?;
        Ok(())
    }

    /// The values as a vector, without memory.
    pub fn into_vec(self) -> Vec<Value>
        ensures { result.items ≡ self }
    {
        let Values { items } = self;
        items
    }

    /// The same values. Strings share their units.
    pub fn clone(&self) -> Result<Values, OutOfMemory>
        ensures { IfOk result (λ values. values ≡ self.now) }
    {
        let mut items = Vec::new(*self.items.allocator());
        for value in &self.items {
            items.push(value.clone()?)?;
        }
        Ok(Values { items })
    }
}

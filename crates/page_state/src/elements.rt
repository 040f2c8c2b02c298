//! Arrays by index (ECMA-262 5.1 section 15.4).

ghost use Rattle.std.specs.Prelude.{◌≡◌, ◌+◌, IfOk};
ghost use Rattle.object_heap.specs.Define.{number as spec_number, number_in};
ghost use Rattle.page_meaning.specs.Elements as spec;
ghost use Rattle.page_state.specs.Does.{Gives, itself, no_value};

use crate::fault::Fault;
use crate::state::State;
use js_core::{OutOfMemory, Whole, ascii_text};
use js_values::{ObjId, Value};
use object_heap::index_name;

/// An index or a length as a value. No memory holds so many elements that it would be no number.
pub fn index_value(index: u64) -> Result<Value, OutOfMemory>
    ensures { IfOk result (λ v. v ≡ spec_number index) }
{
    if index > 9_007_199_254_740_991 {
        return Err(OutOfMemory);
    }
    match Whole::new(index as i64) {
        Some(number) => Ok(Value::Num(number)),
        None => Err(OutOfMemory),
    }
}

/// The index that is so many further on. No memory holds so many elements that it would be none.
pub fn further(index: u64, count: u64) -> Result<u64, OutOfMemory>
    ensures { IfOk result (λ k. k ≡ index + count) }
{
    if count > u64::MAX - index {
        return Err(OutOfMemory);
    }
    Ok(index + count)
}

// The number from 0 up that the value is, or 0.
fn natural(value: &Value) -> u64
    ensures { result ≡ number_in value.now }
{
    match value {
        Value::Num(number) => match number.get() {
            Some(n) => if n < 0 { 0 } else { n as u64 },
            None => 0,
        },
        _ => 0,
    }
}

impl State {
    /// The array that a value is, or `None` exactly where it is none.
    pub fn as_list(&self, value: &Value) -> Option<ObjId>
        ensures { result ≡ spec.list_in value.now self.now }
    {
        match value {
            Value::Object(at) => if self.class(*at).is_list() {
                Some(*at)
            } else {
                None
            },
            Value::Undefined | Value::Null | Value::Bool(_) | Value::Num(_) | Value::Text(_) =>
                None,
        }
    }

    /// The length of an array, or of a function.
    pub fn length_of(&self, at: ObjId) -> Result<u64, OutOfMemory>
        ensures { IfOk result (λ n. n ≡ spec.length_of at self.now) }
    {
        let name = ascii_text(self.alloc(), b"length")?;
        match self.get(at, &name) {
            Some(value) => Ok(natural(value)),
            None => Ok(0),
        }
    }

    /// What an array has at an index, itself or from a prototype, or `None` exactly where it has nothing there.
    pub fn element(&self, at: ObjId, index: u64) -> Result<Option<Value>, OutOfMemory>
        ensures { IfOk result (λ e. e ≡ spec.element at index self.now) }
    {
        let name = index_name(self.alloc(), index)?;
        match self.get(at, &name) {
            Some(value) => Ok(Some(value.clone()?)),
            None => Ok(None),
        }
    }

    /// What an array has at an index, or undefined.
    pub fn element_or_undefined(&self, at: ObjId, index: u64) -> Result<Value, OutOfMemory>
        ensures { IfOk result (λ v. v ≡ spec.element_or at index self.now) }
    {
        match self.element(at, index)? {
            Some(value) => Ok(value),
            None => Ok(Value::Undefined),
        }
    }

    /// The element at an index becomes the value.
    pub fn put_element(&mut self, at: ObjId, index: u64, value: Value) -> Result<(), Fault>
        ensures { Gives no_value (λ _. spec.put_element at index value) self.old self.new result }
    {
        let name = index_name(self.alloc(), index)?;
        self.put_in(at, &name, value)?;
        Ok(())
    }

    /// A new array gets an element.
    pub fn define_element(&mut self, at: ObjId, index: u64, value: Value) -> Result<(), Fault>
        ensures { Gives no_value (λ _. spec.define_element at index value) self.old self.new
            result }
    {
        let name = index_name(self.alloc(), index)?;
        self.define_member(at, &name, value)?;
        Ok(())
    }

    /// The element at an index is deleted, where there is one.
    pub fn delete_element(&mut self, at: ObjId, index: u64) -> Result<(), Fault>
        ensures { Gives no_value (λ _. spec.delete_element at index) self.old self.new result }
    {
        let name = index_name(self.alloc(), index)?;
        self.delete_member(&Value::Object(at), &name)?;
        Ok(())
    }

    /// The length of an array becomes the number, which is given.
    pub fn set_length(&mut self, at: ObjId, length: u64) -> Result<Value, Fault>
        ensures { Gives itself (λ _. spec.set_length at length) self.old self.new result }
    {
        let name = ascii_text(self.alloc(), b"length")?;
        self.put_in(at, &name, index_value(length)?)
    }

    /// The values are put one after another from an index on.
    pub fn put_each(&mut self, at: ObjId, start: u64, values: &[Value]) -> Result<(), Fault>
        ensures { Gives no_value (λ _. spec.put_each at start values.now) self.old self.new result }
    {
        for index in 0..values.len() {
            let place = further(start, index as u64)?;
            let value = values[index].clone()?;
            self.put_element(at, place, value)?;
        }
        Ok(())
    }
}

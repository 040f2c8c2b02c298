//! Conversions of values (ECMA-262 5.1 section 9). An object has no primitive value yet.

ghost use Rattle.std.specs.Prelude.{◌≡◌, IfOk};
ghost use Rattle.std.specs.Result.{result_map_both};
ghost use Rattle.js_values.specs.declared.value.Value.TheVariants.{Num, Text};
ghost use Rattle.page_meaning.specs.Convert as spec;
ghost use Rattle.page_meaning.specs.Convert.{Need};
ghost use Rattle.page_state.specs.Does.{Gives, itself};

use crate::fault::Fault;
use crate::state::State;
use js_core::{OutOfMemory, Units, Whole};
use js_values::{Throw, Value};
use std::alloc::Global;
use whole_ops::LooseFault;

/// The text of a primitive value, and no text for an object (section 9.8).
pub fn text_of(alloc: Global, value: &Value) -> Result<Units, OutOfMemory>
    ensures { IfOk result (λ t. t ≡ spec.text_of value.now) }
{
    match whole_ops::text_of(alloc, value)? {
        Some(text) => Ok(text),
        None => Units::of(alloc, &[]),
    }
}

/// The number of a primitive value, or the error of a value that has none (section 9.3).
pub fn number_of(value: &Value) -> Result<Whole, Throw>
    ensures { result_map_both Num (λ e. e) result ≡ spec.number_of value.now }
{
    match whole_ops::number_of(value) {
        Ok(number) => Ok(number),
        Err(LooseFault::NeedsPrimitive) => Err(Throw::NoPrimitive),
        Err(LooseFault::Outside) => Err(Throw::OutOfRange),
    }
}

impl State {
    /// ToPrimitive (section 9.1), whichever primitive value is wanted first.
    pub fn to_primitive(&mut self, value: &Value) -> Result<Value, Fault>
        ensures { (need : Need) → Gives itself
            (λ calls. spec.to_primitive calls need value.now) self.old self.new result }
    {
        match value {
            Value::Object(_) => Err(self.raise(Throw::NoPrimitive)),
            _ => Ok(value.clone()?),
        }
    }

    /// ToNumber (section 9.3).
    pub fn to_number(&mut self, value: &Value) -> Result<Whole, Fault>
        ensures { Gives Num (λ calls. spec.to_number calls value.now) self.old self.new result }
    {
        match number_of(value) {
            Ok(number) => Ok(number),
            Err(what) => Err(self.raise(what)),
        }
    }

    /// ToString (section 9.8).
    pub fn to_text(&mut self, value: &Value) -> Result<Units, Fault>
        ensures { Gives Text (λ calls. spec.to_text calls value.now) self.old self.new result }
    {
        match value {
            Value::Object(_) => Err(self.raise(Throw::NoPrimitive)),
            _ => Ok(text_of(self.alloc(), value)?),
        }
    }
}

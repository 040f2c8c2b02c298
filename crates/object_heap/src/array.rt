//! Arrays: how their elements and their length are defined (ECMA-262 5.1 section 15.4.5.1).

ghost use Rattle.std.specs.Prelude.{◌≡◌, ◌≤◌, ◌<◌, IfOk, IfSome, is_some};
ghost use Rattle.object_heap.specs.Array.{IsArray, IsProper};
ghost use Rattle.object_heap.specs.Attempt.{Follows};
ghost use Rattle.object_heap.specs.Define.{
  array_length,
  define,
  define_element,
  define_length,
  has_writable_length,
  length_name,
  number,
  number_in,
  shrunk,
  valid_length,
  with_length,
};
ghost use Rattle.object_heap.specs.Index.{index_end};
ghost use Rattle.object_heap.specs.Property.{own_property};
ghost use Rattle.object_heap.specs.Refused.{throw_of};

use crate::fault::{HeapFault, Refused};
use crate::index::array_index;
use crate::object::Object;
use crate::property::{Change, Prop};
use js_core::{OutOfMemory, Units, Whole, ascii_text};
use js_values::{Throw, Value};
use std::alloc::Global;

const LENGTH: &[u8] = b"length";

impl Object {
    /// Defines a property: of an array by section 15.4.5.1, of another object by section 8.12.9.
    pub(crate) fn define(
        &mut self,
        name: &Units,
        change: &Change,
        refused: Refused,
    ) -> Result<(), HeapFault>
        requires { IsProper self.old }
        ensures { Follows (define (throw_of refused) self.old name.now change.now) self.old self.new
            result }
    {
        if !self.class().is_list() {
            return self.define_ordinary(name, change, refused);
        }
        if name.spells(LENGTH) {
            return self.define_length(name, change, refused);
        }
        match array_index(name) {
            Some(index) => self.define_element(name, change, index, refused),
            None => self.define_ordinary(name, change, refused),
        }
    }

    // Defines an array's element.
    fn define_element(
        &mut self,
        name: &Units,
        change: &Change,
        index: u64,
        refused: Refused,
    ) -> Result<(), HeapFault>
        requires { index < index_end }
        ensures { Follows (define_element (throw_of refused) self.old name.now change.now index)
            self.old self.new result }
    {
        if index < self.array_length() {
            return self.define_ordinary(name, change, refused);
        }
        let Some(length) = self.writable_length()? else {
            return Err(HeapFault::Cause(refused.throw()));
        };
        match self.define_ordinary(name, change, refused) {
            Ok(()) => {
                self.set_length(&length, index + 1);
                Ok(())
            }
            Err(fault) => Err(fault),
        }
    }

    // Defines an array's length, whose name is lent.
    fn define_length(
        &mut self,
        name: &Units,
        change: &Change,
        refused: Refused,
    ) -> Result<(), HeapFault>
        requires name { name.now ≡ length_name }
        requires array { IsArray self.old.props }
        ensures { Follows (define_length (throw_of refused) self.old change.now change.now.value)
            self.old self.new result }
    {
        let Some(value) = &change.value else {
            return self.define_ordinary(name, change, refused);
        };
        let Some(end) = valid_length(value) else {
            return Err(HeapFault::Cause(Throw::InvalidLength));
        };
        if self.array_length() <= end {
            return self.define_ordinary(name, change, refused);
        }
        self.shrink(name, change, end, refused)
    }

    // Defines an array's length lower than it is.
    fn shrink(
        &mut self,
        name: &Units,
        change: &Change,
        end: u64,
        refused: Refused,
    ) -> Result<(), HeapFault>
        requires name { name.now ≡ length_name }
        requires array { IsArray self.old.props }
        requires end { end ≤ array_length self.old }
        ensures { Follows (shrunk (throw_of refused) self.old change.now end
            (own_property self.old.props length_name)) self.old self.new result }
    {
        let Some(prop) = self.own(name) else {
            return Err(HeapFault::Cause(refused.throw()));
        };
        if !prop.writable || !prop.may_update(change) {
            return Err(HeapFault::Cause(refused.throw()));
        }
        let updated = change.updated(prop)?;
        let len = self.array_length();
        let kept = self.delete_elements(len, end);
        self.set_property(name, updated.with_value(number(kept)));
        if kept == end {
            Ok(())
        } else {
            Err(HeapFault::Cause(refused.throw()))
        }
    }

    // An array's length.
    fn array_length(&self) -> u64
        ensures { result ≡ array_length self.now }
    {
        match self.props().find(LENGTH) {
            Some((_, prop)) => number_in(&prop.value),
            None => 0,
        }
    }

    // The name of the length, where it may change.
    fn writable_length(&self) -> Result<Option<Units>, OutOfMemory>
        ensures found { IfOk result (λ name. is_some name ≡ has_writable_length self.now) }
        ensures name { IfOk result (λ name. IfSome name (λ n. n ≡ length_name)) }
    {
        match self.props().find(LENGTH) {
            Some((name, prop)) if prop.writable => Ok(Some(name.clone()?)),
            _ => Ok(None),
        }
    }

    // The length becomes another number, and keeps its attributes.
    fn set_length(&mut self, name: &Units, length: u64)
        requires name { name.now ≡ length_name }
        requires length { length ≤ index_end }
        ensures { self.new ≡ with_length self.old length }
    {
        let longer = match self.own(name) {
            Some(prop) => Prop {
                value: number(length),
                writable: prop.writable,
                enumerable: prop.enumerable,
                configurable: prop.configurable,
            },
            None => return,
        };
        self.set_property(name, longer);
    }
}

/// The name of an array's length.
pub(crate) fn length_name(alloc: Global) -> Result<Units, OutOfMemory>
    ensures { IfOk result (λ name. name ≡ length_name) }
{
    ascii_text(alloc, LENGTH)
}

/// The number as a value.
pub(crate) fn number(n: u64) -> Value
    requires { n ≤ index_end }
    ensures { result ≡ number n }
{
    match Whole::new(n as i64) {
        Some(number) => Value::Num(number),
        None => Value::Undefined,
    }
}

// The number that the value is from 0 up, or 0.
fn number_in(value: &Value) -> u64
    ensures { result ≡ number_in value.now }
{
    match value {
        Value::Num(number) => match number.get() {
            Some(n) if n >= 0 => n as u64,
            _ => 0,
        },
        _ => 0,
    }
}

// The length that the value is, or `None` where it is no number from 0 to 2^32 - 1.
fn valid_length(value: &Value) -> Option<u64>
    ensures length { result ≡ valid_length value.now }
    ensures small { IfSome result (λ n. n ≤ index_end) }
{
    match value {
        Value::Num(number) => match number.get() {
            Some(n) if n >= 0 && n <= 4_294_967_295 => Some(n as u64),
            _ => None,
        },
        _ => None,
    }
}

//! Properties of values (ECMA-262 5.1 sections 8.7, 8.12 and 11.2.1).

ghost use Rattle.std.specs.Prelude.{◌≡◌, IfOk, IfSome, Some, is_some, length, pos, unwrap_or};
ghost use Rattle.std.specs.Option.{option_copied, option_map};
ghost use Rattle.js_values.specs.declared.value.Value.TheVariants.{Bool as Truth, Object, Text, Undefined};
ghost use Rattle.object_heap.specs.Define.{whole_property as spec_whole};
ghost use Rattle.page_meaning.specs.Act.{also};
ghost use Rattle.page_meaning.specs.Convert.{number_of as spec_number};
ghost use Rattle.page_meaning.specs.Errors.{settle};
ghost use Rattle.page_meaning.specs.Properties as spec;
ghost use Rattle.page_state.specs.Does.{Gives, itself};

use crate::convert::number_of;
use crate::fault::Fault;
use crate::places::{BOOLEAN_PROTOTYPE, NUMBER_PROTOTYPE, STRING_PROTOTYPE};
use crate::state::State;
use js_core::{OutOfMemory, Units, Whole};
use js_values::{ObjId, Throw, Value};
use object_heap::{Change, Class, array_index};
use page_host::HostName;
use std::alloc::Global;

impl State {
    /// The value, where it can have properties (section 9.10).
    pub fn with_properties(&mut self, value: &Value) -> Result<Value, Fault>
        ensures { Gives itself (λ _. spec.with_properties value.now) self.old self.new result }
    {
        match value {
            Value::Undefined | Value::Null => Err(self.raise(Throw::NoProperties)),
            _ => Ok(value.clone()?),
        }
    }

    /// The property of a value that can have some, or undefined (section 8.7.1). The text of a host name may be too long.
    #[tactic(auto, unfolding(page_meaning::specs::Places::boolean_prototype_place, page_meaning::specs::Places::number_prototype_place, page_meaning::specs::Places::string_prototype_place,),)]
    pub fn property_of(
        &self,
        base: &Value,
        name: &Units,
    ) -> Result<Result<Value, Throw>, OutOfMemory>
        ensures { IfOk result (λ read. read ≡ spec.property_of self.now base.now name.now) }
    {
        match base {
            Value::Object(at) => self.property_at(*at, name),
            Value::Text(text) => match own_of_text(self.alloc(), text, name)? {
                Some(own) => Ok(Ok(own)),
                None => Ok(Ok(self.get_at(STRING_PROTOTYPE, name)?)),
            },
            Value::Num(_) => Ok(Ok(self.get_at(NUMBER_PROTOTYPE, name)?)),
            Value::Bool(_) => Ok(Ok(self.get_at(BOOLEAN_PROTOTYPE, name)?)),
            Value::Undefined | Value::Null => Ok(Ok(Value::Undefined)),
        }
    }

    // The property of an object, where a name may be one of the host's.
    fn property_at(&self, at: ObjId, name: &Units) -> Result<Result<Value, Throw>, OutOfMemory>
        ensures { IfOk result (λ read. read ≡ spec.property_of self.now (Object at) name.now) }
    {
        match HostName::of(name) {
            None => Ok(Ok(self.get_at(at, name)?)),
            Some(host) => self.named(at, name, host),
        }
    }

    /// A property of an object that is none of the host's, or undefined.
    pub fn get_at(&self, at: ObjId, name: &Units) -> Result<Value, OutOfMemory>
        ensures { IfOk result (λ v. v ≡ spec.get_at self.now at name.now) }
    {
        value_or_undefined(self.get(at, name))
    }

    /// The property of a value that can have some, as an act.
    pub fn read_property(&mut self, base: &Value, name: &Units) -> Result<Value, Fault>
        ensures { Gives itself (λ _. spec.read_property base.now name.now) self.old self.new
            result }
    {
        let read = self.property_of(base, name)?;
        self.settle(read)
    }

    /// `base.name` as a value.
    pub fn get_member(&mut self, base: &Value, name: &Units) -> Result<Value, Fault>
        ensures { Gives itself (λ _. spec.get_member base.now name.now) self.old self.new result }
    {
        match base {
            Value::Undefined | Value::Null => Err(self.raise(Throw::NoProperties)),
            _ => self.read_property(base, name),
        }
    }

    /// The name that a value in brackets gives: first the base is tested (section 11.2.1).
    pub fn key_of(&mut self, base: &Value, key: &Value) -> Result<Units, Fault>
        ensures { Gives Text (λ calls. spec.key_of calls base.now key.now) self.old self.new
            result }
    {
        match base {
            Value::Undefined | Value::Null => Err(self.raise(Throw::NoProperties)),
            _ => self.to_text(key),
        }
    }

    /// `base[key]` as a value.
    #[tactic(auto, using(crate::proofs::Does::also_gives, crate::proofs::Does::also_raises))]
    pub fn get_index(&mut self, base: &Value, key: &Value) -> Result<Value, Fault>
        ensures { Gives itself (λ calls. spec.get_index calls base.now key.now) self.old self.new
            result }
    {
        let name = self.key_of(base, key)?;
        self.read_property(base, &name)
    }

    /// Whether it is the length of an array.
    pub fn is_length_of(&self, at: ObjId, name: &Units) -> bool
        ensures { result ≡ spec.is_length_of self.now at name.now }
    {
        self.class(at).is_list() && name.spells(b"length")
    }

    // Puts the value, or throws what is refused.
    #[tactic(auto, using(crate::proofs::Does::passed, crate::proofs::Does::refused))]
    fn stored(&mut self, at: ObjId, name: &Units, value: Value) -> Result<Value, Fault>
        ensures { Gives itself (λ _. spec.stored at name.now value) self.old self.new result }
    {
        let given = value.clone()?;
        match self.put_at(at, name, value)? {
            None => Ok(given),
            Some(what) => Err(self.raise(what)),
        }
    }

    // An array's length takes the value, which is made a number.
    #[tactic(auto, using(crate::proofs::Does::also_gives, crate::proofs::Does::also_raises))]
    fn store_length(&mut self, at: ObjId, name: &Units, value: &Value) -> Result<Value, Fault>
        ensures { Gives itself (λ _. also (settle (spec_number value.now)) (spec.stored at
            name.now)) self.old self.new result }
    {
        match number_of(value) {
            Ok(number) => self.stored(at, name, Value::Num(number)),
            Err(what) => Err(self.raise(what)),
        }
    }

    /// A property of an object becomes the value, which is given; an array's length becomes its number, which is given (sections 8.12.5
    /// and 15.4.5.1).
    pub fn put_in(&mut self, at: ObjId, name: &Units, value: Value) -> Result<Value, Fault>
        ensures { Gives itself (λ _. spec.put_in at name.now value) self.old self.new result }
    {
        if self.is_length_of(at, name) {
            self.store_length(at, name, &value)
        } else {
            self.stored(at, name, value)
        }
    }

    // Deletes a property of an object.
    #[tactic(auto, using(crate::proofs::Does::passed, crate::proofs::Does::refused))]
    fn delete_in(&mut self, at: ObjId, name: &Units) -> Result<bool, Fault>
        ensures { Gives Truth (λ _. spec.delete_member (Object at) name.now) self.old self.new
            result }
    {
        if self.has_named_host(at, name) {
            return Err(self.raise(Throw::CannotDelete));
        }
        match self.delete_at(at, name)? {
            None => Ok(true),
            Some(what) => Err(self.raise(what)),
        }
    }

    // Deletes a property of a text, whose own ones stay.
    fn delete_of_text(&mut self, text: &Units, name: &Units) -> Result<bool, Fault>
        ensures { Gives Truth (λ _. spec.has_unit text.now name.now) self.old self.new result }
    {
        if is_own_of_text(self.alloc(), text, name)? {
            Err(self.raise(Throw::CannotDelete))
        } else {
            Ok(true)
        }
    }

    /// `delete` of a reference to a property (section 11.4.1).
    pub fn delete_member(&mut self, base: &Value, name: &Units) -> Result<bool, Fault>
        ensures { Gives Truth (λ _. spec.delete_member base.now name.now) self.old self.new result }
    {
        match base {
            Value::Object(at) => self.delete_in(*at, name),
            Value::Text(text) => self.delete_of_text(text, name),
            _ => Ok(true),
        }
    }

    /// An own property that a literal makes (section 11.1.5).
    #[tactic(auto, using(crate::proofs::Does::passed, crate::proofs::Does::refused))]
    pub fn define_member(&mut self, at: ObjId, name: &Units, value: Value) -> Result<Value, Fault>
        ensures { Gives itself (λ _. spec.define_member at name.now value) self.old self.new
            result }
    {
        let change = whole_property(value.clone()?);
        match self.define_at(at, name, &change)? {
            None => Ok(value),
            Some(what) => Err(self.raise(what)),
        }
    }

    /// Whether an object has a property, its own or inherited (section 8.12.6).
    pub fn has_property(&self, at: ObjId, name: &Units) -> bool
        ensures { result ≡ spec.has_property self.now at name.now }
    {
        self.get(at, name).is_some()
    }

    /// Whether an object has a property or a host name, its own or inherited (section 8.12.6).
    pub fn has_member(&self, at: ObjId, name: &Units) -> bool
        ensures { result ≡ spec.has_member self.now at name.now }
    {
        match HostName::of(name) {
            None => self.has_property(at, name),
            Some(host) => self.shows(at, name, host),
        }
    }

    /// Whether a value is a function.
    pub fn is_function(&self, value: &Value) -> bool
        ensures { result ≡ spec.is_function (spec.class_of self.now value.now) }
    {
        match value {
            Value::Object(at) => matches!(
                self.class(*at),
                Class::Page { .. } | Class::Native(_) | Class::Bound { .. }
            ),
            Value::Undefined | Value::Null | Value::Bool(_) | Value::Num(_) | Value::Text(_) =>
                false,
        }
    }
}

pub(crate) fn value_or_undefined(found: Option<&Value>) -> Result<Value, OutOfMemory>
    ensures { IfOk result (λ v. v ≡ unwrap_or (option_copied found.entry) Undefined) }
{
    match found {
        Some(value) => value.clone(),
        None => Ok(Value::Undefined),
    }
}

// A property that may be written, seen and configured.
fn whole_property(value: Value) -> Change
    ensures { result ≡ spec_whole value }
{
    Change {
        value: Some(value),
        writable: Some(true),
        enumerable: Some(true),
        configurable: Some(true),
    }
}

/// An own property of a text: its length or a unit, or `None` exactly where there is none (section 15.5.5). A text has fewer units than
/// there are numbers.
pub fn own_of_text(alloc: Global, text: &Units, name: &Units) -> Result<Option<Value>, OutOfMemory>
    ensures { IfOk result (λ o. o ≡ spec.own_of_text text.now name.now) }
{
    let units = text.as_slice();
    if name.spells(b"length") {
        return match length_of(units) {
            Some(length) => Ok(Some(Value::Num(length))),
            None => Err(OutOfMemory),
        };
    }
    match array_index(name) {
        Some(index) => unit_at(alloc, units, index),
        None => Ok(None),
    }
}

fn is_own_of_text(alloc: Global, text: &Units, name: &Units) -> Result<bool, OutOfMemory>
    ensures { IfOk result (λ b. b ≡ is_some (spec.own_of_text text.now name.now)) }
{
    Ok(own_of_text(alloc, text, name)?.is_some())
}

fn unit_at(alloc: Global, units: &[u16], index: u64) -> Result<Option<Value>, OutOfMemory>
    ensures { IfOk result (λ o. o ≡ spec.unit_at units.now (Some index)) }
{
    match units.get(index as usize) {
        Some(unit) => Ok(Some(Value::Text(Units::of(alloc, &[*unit])?))),
        None => Ok(None),
    }
}

fn length_of(units: &[u16]) -> Option<Whole>
    ensures { IfSome result (λ n. n ≡ Some (pos (length units.now))) }
{
    if units.len() < 1 << 32 {
        Whole::new(units.len() as i64)
    } else {
        None
    }
}

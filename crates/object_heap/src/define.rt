//! How a property of an object is defined (ECMA-262 5.1 sections 8.12.9 and 15.4.5.1).

ghost use Rattle.std.specs.Prelude.{◌≡◌, IfOk};
ghost use Rattle.object_heap.specs.Attempt.{Follows};
ghost use Rattle.object_heap.specs.Define.{define_ordinary, with_value};
ghost use Rattle.object_heap.specs.Property.{created, updated, may_update, keeps, keeps_value};
ghost use Rattle.object_heap.specs.Refused.{throw_of};

use crate::fault::{HeapFault, Refused};
use crate::object::Object;
use crate::property::{Change, Prop, is_same_value};
use js_core::{OutOfMemory, Units};
use js_values::Value;

impl Change {
    /// The new property that has what is asked for; all else is undefined or false.
    pub(crate) fn created(&self) -> Result<Prop, OutOfMemory>
        ensures { IfOk result (λ p. p ≡ created self.now) }
    {
        let value = match &self.value {
            Some(value) => value.clone()?,
            None => Value::Undefined,
        };
        Ok(Prop {
            value,
            writable: self.writable.unwrap_or(false),
            enumerable: self.enumerable.unwrap_or(false),
            configurable: self.configurable.unwrap_or(false),
        })
    }

    /// The property with what is asked for.
    pub(crate) fn updated(&self, prop: &Prop) -> Result<Prop, OutOfMemory>
        ensures { IfOk result (λ p. p ≡ updated prop.now self.now) }
    {
        let value = match &self.value {
            Some(value) => value.clone()?,
            None => prop.value.clone()?,
        };
        Ok(Prop {
            value,
            writable: self.writable.unwrap_or(prop.writable),
            enumerable: self.enumerable.unwrap_or(prop.enumerable),
            configurable: self.configurable.unwrap_or(prop.configurable),
        })
    }
}

impl Prop {
    /// The property with another value.
    pub(crate) fn with_value(self, value: Value) -> Prop
        ensures { result ≡ with_value self value }
    {
        Prop {
            value,
            writable: self.writable,
            enumerable: self.enumerable,
            configurable: self.configurable,
        }
    }

    /// Whether the property may be changed so.
    pub(crate) fn may_update(&self, change: &Change) -> bool
        ensures { result ≡ may_update self.now change.now }
    {
        self.configurable
            || (!change.configurable.unwrap_or(false)
                && keeps_flag(change.enumerable, self.enumerable)
                && (self.writable
                    || (!change.writable.unwrap_or(false)
                        && keeps_value_of(&change.value, &self.value))))
    }
}

fn keeps_flag(change: Option<bool>, old: bool) -> bool
    ensures { result ≡ keeps change old }
{
    match change {
        Some(new) => new == old,
        None => true,
    }
}

fn keeps_value_of(change: &Option<Value>, old: &Value) -> bool
    ensures { result ≡ keeps_value change.now old.now }
{
    match change {
        Some(new) => is_same_value(new, old),
        None => true,
    }
}

impl Object {
    /// Defines a property by section 8.12.9.
    pub(crate) fn define_ordinary(
        &mut self,
        name: &Units,
        change: &Change,
        refused: Refused,
    ) -> Result<(), HeapFault>
        ensures { Follows (define_ordinary (throw_of refused) self.old name.now change.now) self.old
            self.new result }
    {
        match self.own(name) {
            Some(prop) => {
                if !prop.may_update(change) {
                    return Err(HeapFault::Cause(refused.throw()));
                }
                let updated = change.updated(prop)?;
                self.set_property(name, updated);
                Ok(())
            }
            None => {
                if !self.is_extensible() {
                    return Err(HeapFault::Cause(refused.throw()));
                }
                let created = change.created()?;
                self.push_property(name, created)?;
                Ok(())
            }
        }
    }
}

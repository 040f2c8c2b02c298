//! The internal methods of one object (ECMA-262 5.1 section 8.12) but those that go up to its prototype.

ghost use Rattle.std.specs.Prelude.{◌≡◌, OnErr, OnOk};
ghost use Rattle.object_heap.specs.Array.{IsProper};
ghost use Rattle.object_heap.specs.Attempt.{Follows};
ghost use Rattle.object_heap.specs.Define.{define_own, delete_own, is_closed_at, prevented, put_change, put_own};
ghost use Rattle.object_heap.specs.Heap.{with_added};
ghost use Rattle.object_heap.specs.Property.{own_property};

use crate::fault::{HeapFault, Refused};
use crate::object::Object;
use crate::property::{Change, Prop};
use global_names::is_global_name;
use js_core::{OutOfMemory, Units};
use js_values::Value;

impl Object {
    /// Whether the property of the name may not be put, defined or deleted: the object is closed, or it is the global
    /// object and the property is one of its built-in ones.
    pub(crate) fn is_closed_at(&self, name: &Units) -> bool
        ensures { result ≡ is_closed_at self.now name.now }
    {
        if self.is_closed() {
            return true;
        }
        self.class().is_window() && is_global_name(name) && self.own(name).is_some()
    }

    /// Defines a property (section 8.12.9, for arrays 15.4.5.1).
    pub(crate) fn define_own(&mut self, name: &Units, change: &Change) -> Result<(), HeapFault>
        requires { IsProper self.old }
        ensures { Follows (define_own self.old name.now change.now) self.old self.new result }
    {
        if self.is_closed_at(name) {
            return Err(HeapFault::Cause(Refused::Define.throw()));
        }
        self.define(name, change, Refused::Define)
    }

    /// Puts a value (section 8.12.5), where section 8.12.4 says whether it may be put.
    pub(crate) fn put_own(
        &mut self,
        may_put: bool,
        name: &Units,
        value: Value,
    ) -> Result<(), HeapFault>
        requires { IsProper self.old }
        ensures { Follows (put_own may_put self.old name.now value) self.old self.new result }
    {
        if self.is_closed_at(name) || !may_put {
            return Err(HeapFault::Cause(Refused::Put.throw()));
        }
        let change = self.put_change(name, value);
        self.define(name, &change, Refused::Put)
    }

    // What becomes of the property to which the value is put.
    fn put_change(&self, name: &Units, value: Value) -> Change
        ensures { result ≡ put_change value (own_property self.now.props name.now) }
    {
        match self.own(name) {
            Some(_) => Change {
                value: Some(value),
                writable: None,
                enumerable: None,
                configurable: None,
            },
            None => Change {
                value: Some(value),
                writable: Some(true),
                enumerable: Some(true),
                configurable: Some(true),
            },
        }
    }

    /// Deletes a property (section 8.12.7). The others keep their order.
    pub(crate) fn delete_own(&mut self, name: &Units) -> Result<(), HeapFault>
        ensures { Follows (delete_own self.old name.now) self.old self.new result }
    {
        if self.is_closed_at(name) {
            return Err(HeapFault::Cause(Refused::Delete.throw()));
        }
        match self.own(name) {
            Some(prop) if !prop.configurable => Err(HeapFault::Cause(Refused::Delete.throw())),
            Some(_) => {
                self.remove_property(name);
                Ok(())
            }
            None => Ok(()),
        }
    }

    /// Adds a property, which is the last. An array, and an object that has one of the name, stays as it is. After an error
    /// nothing has changed.
    pub(crate) fn add_property(&mut self, name: &Units, prop: Prop) -> Result<(), OutOfMemory>
        ensures ok { OnOk result (self.new ≡ with_added self.old name.now prop) }
        ensures err { OnErr result (self.new ≡ self.old) }
    {
        if self.class().is_list() || self.own(name).is_some() {
            return Ok(());
        }
        self.push_property(name, prop)
    }

    /// From now on the object gets no new properties (section 15.2.3.10). The global object and closed ones refuse.
    pub(crate) fn prevent_extensions(&mut self) -> Result<(), HeapFault>
        ensures { Follows (prevented self.old) self.old self.new result }
    {
        if self.is_closed() || self.class().is_window() {
            return Err(HeapFault::Cause(Refused::Define.throw()));
        }
        self.make_not_extensible();
        Ok(())
    }
}

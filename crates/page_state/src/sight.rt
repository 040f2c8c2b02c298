//! What a chain of prototypes shows first of a host name (DOM Level 2 Core and Events).

ghost use Rattle.std.specs.Prelude.{◌≡◌, IfOk, Some, pos, is_some, true};
ghost use Rattle.object_heap.specs.Chain.{object_at};
ghost use Rattle.object_heap.specs.Heap.{IsSound};
ghost use Rattle.object_heap.specs.Property.{own_property};
ghost use Rattle.page_meaning.specs.Classes.{class_at};
ghost use Rattle.page_meaning.specs.HostNames.{event_reads, has_host_name, host_reads, object_or_null as spec_object};
ghost use Rattle.page_meaning.specs.Reading.{seen_at, seen_value};
ghost use Rattle.page_state.specs.Sights.{Shows};

use crate::errors::small;
use crate::properties::value_or_undefined;
use crate::state::State;
use js_core::{OutOfMemory, Units};
use js_values::{ObjId, Throw, Value};
use object_heap::{Class, EventParts};
use page_host::HostName;

/// What is seen first of a host name on a chain of prototypes.
#[derive(Clone, Copy)]
pub enum Sight {
    Nothing,
    /// An own property of the name.
    Held,
    /// The object that answers it itself.
    Hosted(ObjId),
}

impl State {
    /// What the chain of prototypes from the object up shows first of a host name, whose text this is.
    pub fn sight(&self, at: ObjId, text: &Units, name: HostName) -> Sight
        ensures { Shows self.now at text.now (seen_at self.now at text.now name) result }
    {
        self.sound();
        let mut at = at;
        loop {
            if self.has_host_name(at, name) {
                return Sight::Hosted(at);
            }
            if self.has_own(at, text) {
                return Sight::Held;
            }
            match self.proto(at) {
                Some(above) => at = above,
                None => return Sight::Nothing,
            }
        }
    }

    // What holds of its heap. No cost.
    fn sound(&self)
        ensures { IsSound self.now.heap }
    {
        self.heap.sound();
    }

    // Whether an object has the property itself.
    fn has_own(&self, at: ObjId, name: &Units) -> bool
        ensures { result ≡ is_some (own_property (object_at self.now.heap.objects at.0).props
            name.now) }
    {
        self.own(at, name).is_some()
    }

    /// The value of a host name from the object up, or undefined. Its text may be too long.
    pub fn named(
        &self,
        at: ObjId,
        text: &Units,
        name: HostName,
    ) -> Result<Result<Value, Throw>, OutOfMemory>
        ensures { IfOk result (λ read. read ≡ seen_value self.now name
            (seen_at self.now at text.now name)) }
    {
        match self.sight(at, text, name) {
            Sight::Nothing => Ok(Ok(Value::Undefined)),
            Sight::Held => Ok(Ok(value_or_undefined(self.get(at, text))?)),
            Sight::Hosted(host) => self.host_read(host, name),
        }
    }

    /// What an object reads that has the host name itself.
    pub fn host_read(&self, at: ObjId, name: HostName) -> Result<Result<Value, Throw>, OutOfMemory>
        requires { has_host_name self.now.host.nodes (class_at self.now at) name ≡ true }
        ensures { IfOk result (λ read. read ≡ host_reads self.now.host (class_at self.now at)
            name) }
    {
        match self.class(at) {
            Class::Node(node) => self.host.read(self.alloc(), *node, name),
            Class::Event(parts) => Ok(Ok(event_value(parts, name)?)),
            Class::Plain
            | Class::List
            | Class::Page { .. }
            | Class::Native(_)
            | Class::Bound { .. }
            | Class::Fault
            | Class::Math
            | Class::Window => Ok(Ok(Value::Undefined)),
        }
    }

    /// Whether the object has the host name or a property of its text, its own or inherited.
    pub fn shows(&self, at: ObjId, text: &Units, name: HostName) -> bool
        ensures { result ≡ is_some (seen_at self.now at text.now name) }
    {
        match self.sight(at, text, name) {
            Sight::Nothing => false,
            Sight::Held | Sight::Hosted(_) => true,
        }
    }
}

// What an event reads. A phase is seen without the marks of stopped propagation and prevented default.
fn event_value(parts: &EventParts, name: HostName) -> Result<Value, OutOfMemory>
    ensures { IfOk result (λ value. value ≡ event_reads parts.now name) }
{
    match name {
        HostName::EventType => Ok(Value::Text(parts.kind.clone()?)),
        HostName::Target => Ok(object_or_null(parts.target)),
        HostName::CurrentTarget => Ok(object_or_null(parts.current)),
        HostName::EventPhase => Ok(Value::Num(small(parts.phase % 4))),
        HostName::Bubbles => Ok(Value::Bool(parts.bubbles)),
        HostName::Cancelable => Ok(Value::Bool(parts.cancelable)),
        HostName::TimeStamp => Ok(Value::Num(small(0))),
        _ => Ok(Value::Undefined),
    }
}

fn object_or_null(at: Option<ObjId>) -> Value
    ensures { result ≡ spec_object at }
{
    match at {
        Some(at) => Value::Object(at),
        None => Value::Null,
    }
}

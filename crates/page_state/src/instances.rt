//! `instanceof` and `in` (ECMA-262 5.1 sections 11.8.6 and 11.8.7).

ghost use Rattle.std.specs.Prelude.{◌≡◌, IfOk, suc};
ghost use Rattle.js_values.specs.declared.value.Value.TheVariants.{Object};
ghost use Rattle.object_heap.specs.Chain.{object_at};
ghost use Rattle.object_heap.specs.Object.{target_of};
ghost use Rattle.page_meaning.specs.Operators as spec;
ghost use Rattle.page_state.specs.Does.{Gives, itself};

use crate::fault::Fault;
use crate::state::State;
use js_core::{OutOfMemory, ascii_text};
use js_values::{ObjId, Throw, Value};
use object_heap::{Class, Heap};

impl State {
    /// `instanceof` (section 11.8.6).
    pub fn instance_of(&mut self, value: &Value, function: &Value) -> Result<Value, Fault>
        ensures { Gives itself (λ _. spec.instance_of value.now function.now) self.old self.new
            result }
    {
        match function {
            Value::Object(at) => self.instance_of_object(value, *at),
            Value::Undefined | Value::Null | Value::Bool(_) | Value::Num(_) | Value::Text(_) => Err(
                self.raise(Throw::NotFunction),
            ),
        }
    }

    // `instanceof` of an object on the right.
    fn instance_of_object(&mut self, value: &Value, at: ObjId) -> Result<Value, Fault>
        ensures { Gives itself (λ _. spec.instance_of value.now (Object at)) self.old self.new
            result }
    {
        if self.is_function(&Value::Object(at)) {
            self.has_instance(at, value)
        } else {
            Err(self.raise(Throw::NotFunction))
        }
    }

    // Whether a function has the instance (section 15.3.5.3). A primitive value is none, whatever `prototype` is.
    fn has_instance(&mut self, function: ObjId, value: &Value) -> Result<Value, Fault>
        ensures { Gives itself (λ _. spec.has_instance function value.now) self.old self.new
            result }
    {
        match value {
            Value::Object(at) => self.has_object(function, *at),
            Value::Undefined | Value::Null | Value::Bool(_) | Value::Num(_) | Value::Text(_) => Ok(
                Value::Bool(false),
            ),
        }
    }

    // Whether the object inherits from the function's `prototype`.
    fn has_object(&mut self, function: ObjId, at: ObjId) -> Result<Value, Fault>
        ensures { Gives itself (λ _. spec.has_instance function (Object at)) self.old self.new
            result }
    {
        let prototype = self.prototype_for_instances(function)?;
        self.inherits_from(at, &prototype)
    }

    // Whether the object inherits from the value, which has to be an object.
    fn inherits_from(&mut self, at: ObjId, prototype: &Value) -> Result<Value, Fault>
        ensures { Gives itself (λ _. spec.is_instance_of (Object at) prototype.now) self.old
            self.new result }
    {
        match prototype {
            Value::Object(above) => Ok(Value::Bool(self.is_above(*above, at))),
            Value::Undefined | Value::Null | Value::Bool(_) | Value::Num(_) | Value::Text(_) => Err(
                self.raise(Throw::NotObject),
            ),
        }
    }

    // The `prototype` of a function, or of what it is bound to (section 15.3.4.5.3).
    fn prototype_for_instances(&self, function: ObjId) -> Result<Value, OutOfMemory>
        ensures { IfOk result (λ v. v ≡ spec.prototype_for_instances self.now function) }
    {
        let name = ascii_text(self.alloc(), b"prototype")?;
        self.get_at(self.target(function), &name)
    }

    // The function that bound functions lead to from this one.
    fn target(&self, function: ObjId) -> ObjId
        ensures { result ≡ spec.target_of self.now.heap.objects (suc function.0) function }
    {
        target(&self.heap, function)
    }

    /// Whether the one object is above the other in its chain of prototypes.
    pub fn is_above(&self, above: ObjId, at: ObjId) -> bool
        ensures { result ≡ spec.is_above self.now above at }
    {
        is_above(&self.heap, above, at)
    }

    /// `in` (section 11.8.7): the right side is judged before the left one is converted.
    pub fn is_within(&mut self, value: &Value, object: &Value) -> Result<Value, Fault>
        ensures { Gives itself (λ calls. spec.is_within calls value.now object.now) self.old
            self.new result }
    {
        match object {
            Value::Object(at) => self.has_named(*at, value),
            Value::Undefined | Value::Null | Value::Bool(_) | Value::Num(_) | Value::Text(_) => Err(
                self.raise(Throw::NotObject),
            ),
        }
    }

    // Whether an object has the property that the value names.
    fn has_named(&mut self, at: ObjId, value: &Value) -> Result<Value, Fault>
        ensures { Gives itself (λ calls. spec.is_within calls value.now (Object at)) self.old
            self.new result }
    {
        let name = self.to_text(value)?;
        Ok(Value::Bool(self.has_member(at, &name)))
    }
}

fn is_above(heap: &Heap, above: ObjId, at: ObjId) -> bool
    ensures { result ≡ spec.stands_above heap.now.objects (suc at.0) above.0
        (object_at heap.now.objects at.0).proto }
{
    heap.sound();
    let mut at = at;
    loop {
        let Some(proto) = heap.proto(at) else {
            return false;
        };
        if proto.0 == above.0 {
            return true;
        }
        at = proto;
    }
}

fn target(heap: &Heap, function: ObjId) -> ObjId
    ensures { result ≡ spec.target_of heap.now.objects (suc function.0) function }
{
    heap.sound();
    let mut at = function;
    while let Some(next) = bound_target(heap.class(at)) {
        at = next;
    }
    at
}

// What a bound function calls.
fn bound_target(class: &Class) -> Option<ObjId>
    ensures { result ≡ target_of class.now }
{
    match class {
        Class::Bound { target, .. } => Some(*target),
        Class::Plain
        | Class::List
        | Class::Page { .. }
        | Class::Native(_)
        | Class::Fault
        | Class::Math
        | Class::Window
        | Class::Node(_)
        | Class::Event(_) => None,
    }
}

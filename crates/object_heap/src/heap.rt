//! The heap: objects and environments by age (ECMA-262 5.1 sections 8.6, 8.12 and 10.2).

ghost use Rattle.std.specs.Prelude.{◌≡◌, ◌<◌, ◌≤◌, IfOk, IfSome, OnOk, OnErr, None, Some, false, length, nat_lt, not, option_map, slice_get, slice_set, ◌&&◌};
ghost use Rattle.std.specs.Option.{option_copied};
ghost use Rattle.std.specs.Map.{keys_of};
ghost use Rattle.std.specs.Map.Iter.{deref_pair};
ghost use Rattle.object_heap.specs.Attempt.{Follows};
ghost use Rattle.object_heap.specs.Chain.{object_at, get, can_put};
ghost use Rattle.object_heap.specs.Environment.{environment_at, value_of};
ghost use Rattle.object_heap.specs.Property.{own_property, HasDistinctNames};
ghost use Rattle.object_heap.specs.Function.{with_function};
ghost use Rattle.object_heap.specs.Index.{index_end};
ghost use Rattle.object_heap.specs.Object.{is_list, whole_object};
ghost use Rattle.object_heap.specs.Heap.{
  IsFit,
  IsSound,
  add_property,
  close,
  define_own,
  delete,
  empty,
  first_props,
  lookup,
  look_in,
  made,
  new_object,
  opened,
  prevent_extensions,
  put,
  set,
  set_dispatch,
  set_event,
};
ghost use Rattle.object_heap.specs.Rest.{all_rested, is_resting, noted, rest_event, rested, rested_at, unlisted};

use crate::absent::Absent;
use crate::array::{length_name, number};
use crate::chain::{can_put, get_property};
use crate::environment::{Bindings, Environment, inside, lookup};
use crate::fault::HeapFault;
use crate::function::{function_props, prototype_props, push_both};
use crate::object::{Class, EventParts, Object, class_at, older, rests_at};
use crate::properties::Properties;
use crate::property::{Change, Prop};
use js_core::{OutOfMemory, Units};
use js_values::{EnvId, ObjId, Throw, Value};
use std::alloc::Global;
use std::marker::Model;

/// All objects and all environments, each by age: an id is a place. A prototype is older than what has it, and so are the
/// target of a bound function and the environment round another one. The length of an array is above the index of each
/// element, and no two properties of an object have the same name. At an id where there is nothing, nothing is found, no
/// property may be put, defined or deleted, and nothing changes.
pub struct Heap {
    objects: Vec<Object>,
    environments: Vec<Environment>,
    absent: Absent,
    // Each event that does not rest, and some that do.
    restless: Vec<ObjId>,
}

// A function of its own, so that the crates above cite it and do not prove it again.
impl Drop for Heap {
    fn drop(self) {
        let Heap {
            objects: _objects,
            environments: _environments,
            absent: _absent,
            restless: _restless,
        } = self;
    }
}

impl Model for Heap {
    ghost use Rattle.object_heap.specs.Heap.{Contents};
    ghost use Rattle.object_heap.specs.Rest.{IsKept};

    ghost Value = { Contents };

    ghost use Rattle.js_core.specs.Codes.{coded_code};
    ghost use Rattle.std.specs.Coded.{codes};

    ghost coded = { Prim.hlevel (codes, coded_code) };

    ghost view = { λ h. record { objects = h.objects.items; environments = h.environments.items } };

    ghost invariant = { λ h. IsKept
        (record { objects = h.objects.items; environments = h.environments.items })
        h.restless.items };
}

impl Heap {
    /// An empty heap.
    pub fn new(alloc: Global) -> Heap
        ensures { result ≡ empty }
    {
        Heap {
            objects: Vec::new(alloc),
            environments: Vec::new(alloc),
            absent: Absent::new(),
            restless: Vec::new(alloc),
        }
    }

    /// What holds of each heap. No cost.
    pub fn sound(&self)
        ensures { IsSound self.now }
    {
        let _objects = &self.objects;
    }

    /// A new object, the youngest, which is extensible and has no properties, but for the `length` of an array, which is
    /// 0. A prototype that is not there counts as none, and so does a bound function whose target is not there. After an
    /// error nothing has changed.
    pub fn alloc(&mut self, class: Class, proto: Option<ObjId>) -> Result<ObjId, OutOfMemory>
        ensures id { IfOk result (λ at. at.0 ≡ length self.old.objects) }
        ensures ok { OnOk result (self.new ≡ made self.old (new_object class proto)) }
        ensures err { OnErr result (self.new ≡ self.old) }
    {
        let alloc = *self.objects.allocator();
        let props = first_props(alloc, &class)?;
        self.push_object(class, proto, props)
    }

    /// A new object, the youngest, which is extensible and has these properties. It is no array. A prototype that is not
    /// there counts as none, and so does a bound function whose target is not there. After an error nothing has changed.
    pub fn alloc_whole(
        &mut self,
        class: Class,
        proto: Option<ObjId>,
        props: Properties,
    ) -> Result<ObjId, OutOfMemory>
        requires { is_list class ≡ false }
        ensures id { IfOk result (λ at. at.0 ≡ length self.old.objects) }
        ensures ok { OnOk result (self.new ≡ made self.old (whole_object class proto props)) }
        ensures err { OnErr result (self.new ≡ self.old) }
    {
        let _distinct = props.len();
        self.push_object(class, proto, props)
    }

    /// A new function, the youngest but one, with its `length`, its `prototype` and that object, which is the youngest
    /// (sections 13.2 and 15.3.5). The class, the prototype and the number of formals are the function's; `above` is the
    /// prototype of its `prototype`. What is not there counts as none. After an error nothing has changed.
    pub fn alloc_function(
        &mut self,
        class: Class,
        proto: Option<ObjId>,
        formals: u64,
        above: Option<ObjId>,
    ) -> Result<ObjId, OutOfMemory>
        requires class { is_list class ≡ false }
        requires formals { formals ≤ index_end }
        ensures id { IfOk result (λ at. at.0 ≡ length self.old.objects) }
        ensures ok { OnOk result (self.new ≡ with_function self.old class proto formals above) }
        ensures err { OnErr result (self.new ≡ self.old) }
    {
        let alloc = *self.objects.allocator();
        let at = self.objects.len() as u64;
        let next = at + 1;
        let props = function_props(alloc, formals, ObjId(next))?;
        let function = Object::new(class_at(class, at), older(proto, at), props);
        let props = prototype_props(alloc, ObjId(at))?;
        let prototype = Object::new(Class::Plain, older(above, next), props);
        let leaves = stirs_new(&function);
        note(&mut self.restless, ObjId(at), leaves)?;
        push_both(&mut self.objects, function, prototype)?;
        Ok(ObjId(at))
    }

    // The object is the youngest.
    fn push_object(
        &mut self,
        class: Class,
        proto: Option<ObjId>,
        props: Properties,
    ) -> Result<ObjId, OutOfMemory>
        requires { IsFit (whole_object class proto props) }
        ensures id { IfOk result (λ at. at.0 ≡ length self.old.objects) }
        ensures ok { OnOk result (self.new ≡ made self.old (whole_object class proto props)) }
        ensures err { OnErr result (self.new ≡ self.old) }
    {
        let at = self.objects.len() as u64;
        let object = Object::new(class_at(class, at), older(proto, at), props);
        let leaves = stirs_new(&object);
        note(&mut self.restless, ObjId(at), leaves)?;
        self.objects.push(object)?;
        Ok(ObjId(at))
    }

    /// The number of objects.
    pub fn count(&self) -> u64
        ensures { result ≡ length self.now.objects }
    {
        self.objects.len() as u64
    }

    /// Whether there is an object at the id.
    pub fn has(&self, at: ObjId) -> bool
        ensures { result ≡ nat_lt at.0 (length self.now.objects) }
    {
        at.0 < self.count()
    }

    // The object at the id, if there is one.
    fn object(&self, at: ObjId) -> Option<&Object>
        ensures there { IfSome result (λ o. o.now ≡ object_at self.now.objects at.0) }
        ensures absent { option_copied result ≡ None → length self.now.objects ≤ at.0 }
    {
        self.objects.get(at.0 as usize)
    }

    /// The object's class.
    pub fn class(&self, at: ObjId) -> &Class
        ensures { result.now ≡ (object_at self.now.objects at.0).class }
    {
        match self.object(at) {
            Some(object) => object.class(),
            None => self.absent.class(),
        }
    }

    /// The object's prototype, which is older.
    pub fn proto(&self, at: ObjId) -> Option<ObjId>
        ensures proto { result ≡ (object_at self.now.objects at.0).proto }
        ensures older { IfSome result (λ p. p.0 < at.0) }
    {
        self.sound();
        match self.object(at) {
            Some(object) => object.proto(),
            None => None,
        }
    }

    /// Whether the object may get new properties.
    pub fn is_extensible(&self, at: ObjId) -> bool
        ensures { result ≡ (object_at self.now.objects at.0).extensible }
    {
        match self.object(at) {
            Some(object) => object.is_extensible(),
            None => false,
        }
    }

    /// The object's own property of the name, or `None` exactly where there is none (section 8.12.1).
    pub fn own(&self, at: ObjId, name: &Units) -> Option<&Prop>
        ensures { option_copied result ≡ own_property
            (object_at self.now.objects at.0).props name.now }
    {
        match self.object(at) {
            Some(object) => object.own(name),
            None => None,
        }
    }

    /// The object's own property at the place in order of creation, with its name, or `None` exactly past the last.
    pub fn own_at(&self, at: ObjId, index: u64) -> Option<(&Units, &Prop)>
        ensures { option_map deref_pair result
            ≡ slice_get (object_at self.now.objects at.0).props index }
    {
        match self.object(at) {
            Some(object) => object.props().get_index(index as usize),
            None => None,
        }
    }

    /// The names of the object's own properties, in order of creation. No two are the same.
    pub fn own_keys(&self, at: ObjId) -> Result<Vec<Units>, OutOfMemory>
        ensures names { IfOk result (λ names. names.items
            ≡ keys_of (object_at self.now.objects at.0).props) }
        ensures distinct { HasDistinctNames (object_at self.now.objects at.0).props }
    {
        let alloc = *self.objects.allocator();
        match self.object(at) {
            Some(object) => object.props().names(alloc),
            None => Ok(Vec::new(alloc)),
        }
    }

    /// The value of the property of the name that the object has, or else its prototype, and so on, or `None` exactly
    /// where none of them has it (section 8.12.3).
    pub fn get(&self, at: ObjId, name: &Units) -> Option<&Value>
        ensures { option_copied result ≡ get self.now.objects at.0 name.now }
    {
        if at.0 as usize >= self.objects.len() {
            return None;
        }
        match get_property(self.objects.as_slice(), at, name) {
            Some(prop) => Some(&prop.value),
            None => None,
        }
    }

    /// Whether a value may be put to the object's property of the name (section 8.12.4).
    pub fn can_put(&self, at: ObjId, name: &Units) -> bool
        ensures { result ≡ can_put self.now.objects at.0 name.now }
    {
        if at.0 as usize >= self.objects.len() {
            return false;
        }
        can_put(self.objects.as_slice(), at, name)
    }

    /// Puts a value to the object's property of the name (sections 8.12.5 and 15.4.5.1). It throws `CannotSet` where that
    /// is rejected or the place is closed, and `InvalidLength` where an array's length is to be what is none. A value for
    /// an array's length is a number.
    #[tactic(auto, unfolding(crate::specs::Heap::put))]
    pub fn put(&mut self, at: ObjId, name: &Units, value: Value) -> Result<(), HeapFault>
        ensures { Follows (put self.old at.0 name.now value) self.old self.new result }
    {
        if at.0 as usize >= self.objects.len() {
            return Err(HeapFault::Cause(Throw::CannotSet));
        }
        let may_put = can_put(self.objects.as_slice(), at, name);
        self.objects[at.0 as usize].put_own(may_put, name, value)
    }

    /// Defines the object's property of the name (sections 8.12.9 and 15.4.5.1). It throws `CannotDefine` where that is
    /// rejected or the place is closed, and `InvalidLength` where an array's length is to be what is none. A value for an
    /// array's length is a number.
    #[tactic(auto, unfolding(crate::specs::Heap::define_own))]
    pub fn define_own(&mut self, at: ObjId, name: &Units, change: &Change) -> Result<(), HeapFault>
        ensures { Follows (define_own self.old at.0 name.now change.now) self.old self.new result }
    {
        if at.0 as usize >= self.objects.len() {
            return Err(HeapFault::Cause(Throw::CannotDefine));
        }
        self.objects[at.0 as usize].define_own(name, change)
    }

    /// Deletes the object's property of the name, if there is one (section 8.12.7). It throws `CannotDelete` exactly where
    /// the property is not configurable or the place is closed.
    #[tactic(auto, unfolding(crate::specs::Heap::delete))]
    pub fn delete(&mut self, at: ObjId, name: &Units) -> Result<(), HeapFault>
        ensures { Follows (delete self.old at.0 name.now) self.old self.new result }
    {
        if at.0 as usize >= self.objects.len() {
            return Err(HeapFault::Cause(Throw::CannotDelete));
        }
        self.objects[at.0 as usize].delete_own(name)
    }

    /// From now on the object gets no new properties (section 15.2.3.10). It throws `CannotDefine` exactly where the
    /// object is closed or the global one.
    #[tactic(auto, unfolding(crate::specs::Heap::prevent_extensions))]
    pub fn prevent_extensions(&mut self, at: ObjId) -> Result<(), HeapFault>
        ensures { Follows (prevent_extensions self.old at.0) self.old self.new result }
    {
        if at.0 as usize >= self.objects.len() {
            return Err(HeapFault::Cause(Throw::CannotDefine));
        }
        self.objects[at.0 as usize].prevent_extensions()
    }

    /// Adds a property to the object, as its last. An array, and an object that has one of the name, stays as it is. After
    /// an error nothing has changed.
    #[tactic(auto, unfolding(crate::specs::Heap::add_property))]
    pub fn add_property(&mut self, at: ObjId, name: &Units, prop: Prop) -> Result<(), OutOfMemory>
        ensures ok { OnOk result (self.new ≡ add_property self.old at.0 name.now prop) }
        ensures err { OnErr result (self.new ≡ self.old) }
    {
        if at.0 as usize >= self.objects.len() {
            return Ok(());
        }
        self.objects[at.0 as usize].add_property(name, prop)
    }

    /// From now on none of the object's properties may be put, defined or deleted. No memory.
    pub fn close(&mut self, at: ObjId)
        ensures { self.new ≡ close self.old at.0 }
    {
        if at.0 as usize >= self.objects.len() {
            return;
        }
        self.objects[at.0 as usize].close();
    }

    /// The event gets these parts. An object that is no event stays as it is. After an error nothing has changed.
    pub fn set_event(&mut self, at: ObjId, parts: EventParts) -> Result<(), OutOfMemory>
        ensures ok { OnOk result (self.new ≡ set_event self.old at.0 parts) }
        ensures err { OnErr result (self.new ≡ self.old) }
    {
        if at.0 as usize >= self.objects.len() {
            return Ok(());
        }
        let rests = rests_at(parts.current, parts.phase);
        let leaves = stirs(&self.objects[at.0 as usize], rests);
        note(&mut self.restless, at, leaves)?;
        self.objects[at.0 as usize].set_event(parts);
        Ok(())
    }

    /// The event gets this state of a dispatch: whether it has begun, its target, the object that it is at, and its phase,
    /// plus 4 after its propagation was stopped, plus 8 after its default was prevented. An object that is no event stays
    /// as it is. Memory is wanted where an event that rests does not any more. After an error nothing has changed.
    pub fn set_dispatch(
        &mut self,
        at: ObjId,
        sent: bool,
        target: Option<ObjId>,
        current: Option<ObjId>,
        phase: u8,
    ) -> Result<(), OutOfMemory>
        ensures ok { OnOk result (self.new
            ≡ set_dispatch self.old at.0 sent target current phase) }
        ensures err { OnErr result (self.new ≡ self.old) }
    {
        if at.0 as usize >= self.objects.len() {
            return Ok(());
        }
        let rests = rests_at(current, phase);
        let leaves = stirs(&self.objects[at.0 as usize], rests);
        note(&mut self.restless, at, leaves)?;
        self.objects[at.0 as usize].set_dispatch(sent, target, current, phase);
        Ok(())
    }

    /// The event is as after a dispatch: at no object and in no phase. An object that is no event stays as it is. No memory.
    pub fn rest_event(&mut self, at: ObjId)
        ensures { self.new ≡ rest_event self.old at.0 }
    {
        if at.0 as usize >= self.objects.len() {
            return;
        }
        self.objects[at.0 as usize].rest();
        forget(&mut self.restless, at);
    }

    /// All events are as after a dispatch. Only those that do not rest are looked at. No memory.
    pub fn rest_events(&mut self)
        ensures { self.new ≡ all_rested self.old }
    {
        rest_each(&mut self.objects, self.restless.as_slice());
        self.restless.clear();
    }

    /// A new environment, the youngest, with these names and values, which are not copied, inside another one, if any. One
    /// that is not there counts as none. After an error nothing has changed.
    pub fn new_env(
        &mut self,
        outer: Option<EnvId>,
        names: Vec<(Units, Value)>,
    ) -> Result<EnvId, OutOfMemory>
        ensures id { IfOk result (λ at. at.0 ≡ length self.old.environments) }
        ensures ok { OnOk result (self.new ≡ opened self.old outer names.items) }
        ensures err { OnErr result (self.new ≡ self.old) }
    {
        let at = self.environments.len() as u64;
        let environment = Environment::new(inside(outer, at), Bindings::of(names));
        self.environments.push(environment)?;
        Ok(EnvId(at))
    }

    /// The number of environments.
    pub fn env_count(&self) -> u64
        ensures { result ≡ length self.now.environments }
    {
        self.environments.len() as u64
    }

    /// The innermost environment from this one outwards that has the name, with the value, or `None` exactly where none
    /// has it (section 10.2.2.1). No memory.
    pub fn lookup(&self, from: EnvId, name: &Units) -> Option<(EnvId, &Value)>
        ensures found { option_map (λ found. (found.0, found.1.now)) result
            ≡ lookup self.now.environments from.0 name.now }
        ensures there { IfSome result (λ found. found.0.0 < length self.now.environments) }
        ensures bound { IfSome result (λ found. value_of
            (environment_at self.now.environments found.0.0).names name.now ≡ Some found.1.now) }
    {
        if from.0 as usize >= self.environments.len() {
            return None;
        }
        lookup(self.environments.as_slice(), from, name)
    }

    /// The same from an environment that there may be.
    pub fn look_in(&self, from: Option<EnvId>, name: &Units) -> Option<(EnvId, &Value)>
        ensures found { option_map (λ found. (found.0, found.1.now)) result
            ≡ look_in self.now.environments from name.now }
        ensures there { IfSome result (λ found. found.0.0 < length self.now.environments) }
        ensures bound { IfSome result (λ found. value_of
            (environment_at self.now.environments found.0.0).names name.now ≡ Some found.1.now) }
    {
        match from {
            Some(from) => self.lookup(from, name),
            None => None,
        }
    }

    /// The name of the environment takes the value (section 10.2.1.1.3). Nothing changes where it is not there. No memory.
    #[tactic(auto, unfolding(crate::specs::Heap::set))]
    pub fn set(&mut self, env: EnvId, name: &Units, value: Value)
        ensures { self.new ≡ set self.old env.0 name.now value }
    {
        if env.0 as usize >= self.environments.len() {
            return;
        }
        self.environments[env.0 as usize].set(name, value);
    }
}

// Whether the object rests, and does not once it has other parts.
fn stirs(object: &Object, rests: bool) -> bool
    ensures { result ≡ (is_resting object.now.class && not rests) }
{
    object.is_resting() && !rests
}

// Whether a new object does not rest.
fn stirs_new(object: &Object) -> bool
    ensures { result ≡ not (is_resting object.now.class) }
{
    !object.is_resting()
}

// The event is put on the list, if it is to be.
fn note(restless: &mut Vec<ObjId>, at: ObjId, leaves: bool) -> Result<(), OutOfMemory>
    ensures ok { OnOk result (restless.new.items ≡ noted leaves at restless.old.items) }
    ensures err { OnErr result (restless.new.items ≡ restless.old.items) }
{
    if leaves {
        restless.push(at)?;
    }
    Ok(())
}

// The event is taken off the list.
fn forget(restless: &mut Vec<ObjId>, at: ObjId)
    ensures { restless.new.items ≡ unlisted at restless.old.items }
{
    restless.retain(|other| other.0 != at.0);
}

// The objects at the places, one after another, are as after a dispatch.
#[tactic(auto, using(crate::proofs::Resting::one_rested, crate::proofs::Resting::none_left_to_rest))]
fn rest_each(objects: &mut Vec<Object>, listed: &[ObjId])
    ensures { objects.new.items ≡ rested_at listed.now objects.old.items }
{
    for at in listed {
        rest_at(objects, *at);
    }
}

fn rest_at(objects: &mut Vec<Object>, at: ObjId)
    ensures { objects.new.items ≡ slice_set objects.old.items at.0
        (rested (object_at objects.old.items at.0)) }
{
    if at.0 as usize >= objects.len() {
        return;
    }
    objects[at.0 as usize].rest();
}

// The properties of a new object.
fn first_props(alloc: Global, class: &Class) -> Result<Properties, OutOfMemory>
    ensures { IfOk result (λ props. props ≡ first_props class.now) }
{
    let mut props = Properties::new(alloc);
    if class.is_list() {
        let name = length_name(alloc)?;
        let length = Prop {
            value: number(0),
            writable: true,
            enumerable: false,
            configurable: false,
        };
        props.push(&name, length)?;
    }
    Ok(props)
}

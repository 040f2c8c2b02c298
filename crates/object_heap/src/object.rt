//! Objects.

ghost use Rattle.std.specs.Prelude.{◌≡◌, ◌≤◌, ◌++◌, ◌∷◌, [], None, OnErr, OnOk, if◌then◌else◌};
ghost use Rattle.std.specs.Option.{option_copied};
ghost use Rattle.object_heap.specs.Counted.{AreBelow};
ghost use Rattle.object_heap.specs.Define.{elements_below, end_kept};
ghost use Rattle.object_heap.specs.Index.{index_end};
ghost use Rattle.object_heap.specs.declared.object.Class.TheVariants.{Plain};
ghost use Rattle.object_heap.specs.Object.{
  class_at,
  is_list,
  is_window,
  not_extensible,
  older,
  whole_object,
  with_closed,
  with_dispatch,
  with_event,
  with_props,
};
ghost use Rattle.object_heap.specs.Property.{own_property, with_property, without_property};
ghost use Rattle.object_heap.specs.Rest.{is_resting, rested, rests_at};

use crate::properties::Properties;
use crate::property::Prop;
use crate::values::Values;
use code_table::FunctionCode;
use js_core::{OutOfMemory, Units};
use js_values::{BuiltIn, EnvId, NodeId, ObjId, Value};
use std::marker::Model;

/// What kind of object it is, with what only objects of this kind have (ECMA-262 5.1 section 8.6.2).
#[derive(Drop)]
pub enum Class {
    /// Any other object.
    Plain,
    /// An array (section 15.4.5).
    List,
    /// A function of a page, by its code and the environment round it, which is `None` at the top of a script
    /// (section 13.2).
    Page {
        code: FunctionCode,
        env: Option<EnvId>,
    },
    /// A built-in function.
    Native(BuiltIn),
    /// A bound function (section 15.3.4.5).
    Bound {
        target: ObjId,
        this: Value,
        args: Values,
    },
    /// An error (section 15.11.5).
    Fault,
    /// The object Math (section 15.8).
    Math,
    /// The global object (section 15.1).
    Window,
    /// The object of a node.
    Node(NodeId),
    /// An event.
    Event(EventParts),
}

/// The parts of an event.
#[derive(Drop)]
pub struct EventParts {
    /// Its type.
    pub kind: Units,
    pub bubbles: bool,
    pub cancelable: bool,
    /// It was initialised.
    pub begun: bool,
    /// A dispatch of it has begun.
    pub sent: bool,
    pub target: Option<ObjId>,
    pub current: Option<ObjId>,
    /// Its phase, plus 4 after its propagation was stopped, plus 8 after its default was prevented.
    pub phase: u8,
}

/// An object, which contracts see as its class, its prototype, whether it is extensible, whether it is closed, and its
/// properties.
pub struct Object {
    class: Class,
    // It never changes.
    proto: Option<ObjId>,
    extensible: bool,
    // None of its properties may be put, defined or deleted.
    closed: bool,
    props: Properties,
}

// A function of its own, so that the crates above cite it and do not prove it again.
impl Drop for Object {
    fn drop(self) {
        let Object {
            class: _class,
            proto: _proto,
            extensible: _extensible,
            closed: _closed,
            props: _props,
        } = self;
    }
}

impl Model for Object {
    ghost use Rattle.object_heap.specs.Object as pure;

    ghost Value = { pure.Object };

    ghost use Rattle.js_core.specs.Codes.{coded_code};
    ghost use Rattle.std.specs.Coded.{codes};

    ghost coded = { Prim.hlevel (codes, coded_code) };

    ghost view = { λ o. record {
      class = o.class;
      proto = o.proto;
      extensible = o.extensible;
      closed = o.closed;
      props = o.props;
    } };
}

impl Class {
    /// Whether it is the class of arrays.
    pub fn is_list(&self) -> bool
        ensures { result ≡ is_list self.now }
    {
        matches!(self, Class::List)
    }

    /// Whether it is the class of the global object.
    pub fn is_window(&self) -> bool
        ensures { result ≡ is_window self.now }
    {
        matches!(self, Class::Window)
    }

    // Whether it is no event, or one that rests.
    fn is_resting(&self) -> bool
        ensures { result ≡ is_resting self.now }
    {
        match self {
            Class::Event(parts) => rests_at(parts.current, parts.phase),
            _ => true,
        }
    }

    // Whether it is the class of a bound function whose target is not older than the place.
    fn has_no_target(&self, at: u64) -> bool
        ensures { (if result then Plain else self.now) ≡ class_at at self.now }
    {
        match self {
            Class::Bound { target, .. } => target.0 >= at,
            _ => false,
        }
    }
}

/// Whether an event rests that is at this object and in this phase.
pub(crate) fn rests_at(current: Option<ObjId>, phase: u8) -> bool
    ensures { result ≡ rests_at current phase }
{
    current.is_none() && phase == 0
}

/// The class of an object at the place: a bound function whose target is not older is none.
pub(crate) fn class_at(class: Class, at: u64) -> Class
    ensures { result ≡ class_at at class }
{
    if class.has_no_target(at) {
        Class::Plain
    } else {
        class
    }
}

/// The object, where it is older than the place.
pub(crate) fn older(object: Option<ObjId>, at: u64) -> Option<ObjId>
    ensures { result ≡ older at object }
{
    match object {
        Some(object) if object.0 < at => Some(object),
        _ => None,
    }
}

impl Object {
    /// An object with these properties and no others, which is extensible.
    pub(crate) fn new(class: Class, proto: Option<ObjId>, props: Properties) -> Object
        ensures { result ≡ whole_object class proto props }
    {
        Object {
            class,
            proto,
            extensible: true,
            closed: false,
            props,
        }
    }

    /// Its class.
    pub(crate) fn class(&self) -> &Class
        ensures { result.now ≡ self.now.class }
    {
        &self.class
    }

    /// Whether it is no event, or one that rests.
    pub(crate) fn is_resting(&self) -> bool
        ensures { result ≡ is_resting self.now.class }
    {
        self.class.is_resting()
    }

    /// Its prototype.
    pub(crate) fn proto(&self) -> Option<ObjId>
        ensures { result ≡ self.now.proto }
    {
        self.proto
    }

    /// Whether it may get new properties.
    pub(crate) fn is_extensible(&self) -> bool
        ensures { result ≡ self.now.extensible }
    {
        self.extensible
    }

    /// Whether none of its properties may be put, defined or deleted.
    pub(crate) fn is_closed(&self) -> bool
        ensures { result ≡ self.now.closed }
    {
        self.closed
    }

    /// Its properties.
    pub(crate) fn props(&self) -> &Properties
        ensures { result.now ≡ self.now.props }
    {
        &self.props
    }

    /// Its own property of the name, or `None` exactly where there is none (ECMA-262 5.1 section 8.12.1).
    pub(crate) fn own(&self, name: &Units) -> Option<&Prop>
        ensures { option_copied result ≡ own_property self.now.props name.now }
    {
        self.props.get(name)
    }

    /// One more property, which is the last. After an error nothing has changed.
    pub(crate) fn push_property(&mut self, name: &Units, prop: Prop) -> Result<(), OutOfMemory>
        requires { own_property self.old.props name.now ≡ None }
        ensures ok { OnOk result (self.new ≡ with_props self.old
            (self.old.props ++ (name.now, prop) ∷ [])) }
        ensures err { OnErr result (self.new ≡ self.old) }
    {
        self.props.push(name, prop)
    }

    /// The property of the name becomes another, at its place. Nothing changes where there is none.
    pub(crate) fn set_property(&mut self, name: &Units, prop: Prop)
        ensures { self.new ≡ with_props self.old (with_property self.old.props name.now prop) }
    {
        self.props.set(name, prop);
    }

    /// The property of the name is gone. Nothing changes where there is none.
    pub(crate) fn remove_property(&mut self, name: &Units)
        ensures { self.new ≡ with_props self.old (without_property self.old.props name.now) }
    {
        self.props.remove(name);
    }

    /// Deletes the elements of an array from the top until its length is `end`, or down to the last one that is not
    /// configurable, and answers the length that is left. Its length was `len`.
    pub(crate) fn delete_elements(&mut self, len: u64, end: u64) -> u64
        requires below { AreBelow len self.old.props }
        requires end { end ≤ len }
        requires small { len ≤ index_end }
        ensures kept { result ≡ end_kept end self.old.props }
        ensures props { self.new ≡ with_props self.old
            (elements_below (end_kept end self.old.props) self.old.props) }
        ensures small { result ≤ index_end }
    {
        self.props.delete_elements(len, end)
    }

    /// From now on it gets no new properties.
    pub(crate) fn make_not_extensible(&mut self)
        ensures { self.new ≡ not_extensible self.old }
    {
        self.extensible = false;
    }

    /// From now on none of its properties may be put, defined or deleted.
    pub(crate) fn close(&mut self)
        ensures { self.new ≡ with_closed self.old }
    {
        self.closed = true;
    }

    /// An event gets these parts. Nothing changes where it is none.
    pub(crate) fn set_event(&mut self, parts: EventParts)
        ensures { self.new ≡ with_event self.old parts }
    {
        if let Class::Event(_) = &self.class {
            self.class = Class::Event(parts);
        }
    }

    /// An event gets this state of a dispatch. Nothing changes where it is none. No memory.
    pub(crate) fn set_dispatch(
        &mut self,
        sent: bool,
        target: Option<ObjId>,
        current: Option<ObjId>,
        phase: u8,
    )
        ensures { self.new ≡ with_dispatch self.old sent target current phase }
    {
        if let Class::Event(parts) = &mut self.class {
            parts.sent = sent;
            parts.target = target;
            parts.current = current;
            parts.phase = phase;
        }
    }

    /// An event is as after a dispatch. Nothing changes where it is none. No memory.
    pub(crate) fn rest(&mut self)
        ensures { self.new ≡ rested self.old }
    {
        if let Class::Event(parts) = &mut self.class {
            parts.current = None;
            parts.phase = 0;
        }
    }
}

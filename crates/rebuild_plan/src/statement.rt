//! The statements of a saved page, as a list of which they are written.
//!
//! Ids are places: a built-in object and the document's keep their own, and the thing with number n has the nth place after them.

use code_table::FunctionCode;
use heap_walker::Needs;
use js_core::Units;
use js_values::{ErrorKind, ObjId, Value};
use object_heap::{Prop, Values};

/// What makes a thing.
#[derive(Drop)]
pub enum Maker {
    /// An ordinary object with this prototype (ECMA-262 5.1 section 15.2.3.5).
    Plain(Option<ObjId>),
    /// An array (section 11.1.4).
    List,
    /// An error of a kind (section 15.11).
    Fault(ErrorKind),
    /// A function of a page, with the variables that it needs from the scopes round it (section 13).
    Func {
        code: FunctionCode,
        needs: Needs,
    },
    /// A bound function (section 15.3.4.5).
    Bind {
        target: ObjId,
        this: Value,
        args: Values,
    },
    /// An element of this name, which is in lower case (DOM Level 2 Core, interface Document).
    Element(Units),
    /// A text.
    Text(Units),
    /// A comment.
    Comment(Units),
    /// An event (DOM Level 2 Events, interface DocumentEvent).
    Event,
}

/// A statement of a saved page.
#[derive(Drop)]
pub enum Rebuild {
    /// The thing with this number is made.
    Make {
        number: u64,
        maker: Maker,
    },
    /// The child is put at the end of the children of the parent (DOM Level 2 Core, interface Node).
    Append {
        parent: ObjId,
        child: ObjId,
    },
    /// An attribute of an element is set (interface Element).
    Attribute {
        node: ObjId,
        name: Units,
        value: Units,
    },
    /// The value of an `input` or `textarea` element is set.
    SetValue {
        node: ObjId,
        text: Units,
    },
    /// An event is initialised (DOM Level 2 Events, interface Event).
    Init {
        event: ObjId,
        kind: Units,
        bubbles: bool,
        cancelable: bool,
    },
    /// An event is dispatched at a node, where no listener is yet (interface EventTarget).
    Dispatch {
        target: ObjId,
        event: ObjId,
    },
    /// A listener is added to a node.
    Listen {
        node: ObjId,
        kind: Units,
        call: ObjId,
        capture: bool,
    },
    /// A property is defined with its four attributes (section 15.2.3.6).
    Define {
        at: ObjId,
        name: Units,
        prop: Prop,
    },
    /// The `prototype` of a function takes this value, and is writable or not.
    DefinePrototype {
        at: ObjId,
        value: Value,
        writable: bool,
    },
    /// The length of an array takes this value, and is writable or not.
    DefineLength {
        at: ObjId,
        value: Value,
        writable: bool,
    },
    /// A timer is started that takes the least free id (HTML, timers).
    Filler,
    /// A timer is cleared.
    Clear {
        id: u32,
    },
    /// A timeout is started with what is left of its time.
    Timeout {
        call: ObjId,
        rest: u64,
    },
    /// An interval is started with what is left of its first time, and its period.
    Interval {
        call: ObjId,
        rest: u64,
        period: u64,
    },
    /// An object gets no new properties any more (section 15.2.3.10).
    Prevent {
        at: ObjId,
    },
}

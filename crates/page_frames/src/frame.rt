//! What waits for a part of a script, and what begins one.

use crate::rounds::{Places, Round};
use crate::spot::Spot;
use js_core::{OutOfMemory, Units};
use js_values::{NodeId, ObjId, Value};
use object_heap::Values;
use page_host::Place;
use page_meaning::{Reference, Signal, Visit};
use std::alloc::Global;
use std::marker::Model;

/// An expression waits for the value of the part whose number is `turn`, with what it has got.
#[derive(Drop)]
pub struct ExprFrame {
    pub spot: Spot,
    pub turn: u64,
    pub got: Values,
}

/// An assignment to a name, or a name that a `var` declares, waits for its right side; it holds what the name meant, and, where there is an
/// operator, its value.
#[derive(Drop)]
pub struct NameFrame {
    pub spot: Spot,
    pub reference: Reference,
    pub old: Option<Value>,
}

/// The target of a for-in waits for its base, or with the base for its key; it takes the value then.
#[derive(Drop)]
pub struct TargetFrame {
    pub spot: Spot,
    pub value: Value,
    pub base: Option<Value>,
}

/// A statement waits for the end of the part whose number is `turn`. A `finally` keeps the end that it may give back.
#[derive(Drop)]
pub struct StmtFrame {
    pub spot: Spot,
    pub turn: u64,
    pub kept: Option<Signal>,
}

/// Names with the objects that have them; no object for a unit of a text. Contracts see it as the list.
#[derive(Drop)]
pub struct Listed {
    names: Vec<(Option<ObjId>, Units)>,
}

impl Model for Listed {
    ghost use Rattle.page_meaning.specs.Loops.{Listed as Names};
    ghost use Rattle.page_frames.specs.CodedWhere.{coded_listed};

    ghost Value = { Names };

    ghost coded = { coded_listed };

    ghost view = { λ l. l.names.items };
}

ghost use Rattle.std.specs.Prelude.{◌≡◌, IfOk};

impl Listed {
    /// These names.
    pub fn of(names: Vec<(Option<ObjId>, Units)>) -> Listed
        ensures { result ≡ names.items }
    {
        Listed { names }
    }

    /// The names, without memory.
    pub fn as_slice(&self) -> &[(Option<ObjId>, Units)]
        ensures { result.now ≡ self.now }
    {
        self.names.as_slice()
    }
}

/// A for-in waits at the name of this index: for its target to take the name, or for its body.
#[derive(Drop)]
pub struct EachFrame {
    pub spot: Spot,
    pub names: Listed,
    pub index: u64,
    pub assigning: bool,
}

/// A `switch` of this value waits for the test of the case of this index, or for its statements.
#[derive(Drop)]
pub struct CaseFrame {
    pub spot: Spot,
    pub value: Value,
    pub index: u64,
    pub testing: bool,
}

/// A call, or a construction, which has no `this`.
#[derive(Drop)]
pub struct CallFrame {
    pub construct: bool,
    pub callee: Value,
    pub this: Value,
    pub args: Values,
}

/// A call waits for the end of its body, or for another call. The fresh object of a construction takes the place of what the body gives,
/// unless that is an object.
#[derive(Drop)]
pub struct CalledFrame {
    pub body: bool,
    pub fresh: Option<Value>,
}

/// An array that is visited, as long as it was when the visit began, and the function that is called for its elements, with its `this`.
#[derive(Drop)]
pub struct Visited {
    pub callback: Value,
    pub this: Value,
    pub list: ObjId,
    pub length: u64,
}

/// A visit waits for what its function gives for the element of this index. It keeps the level of depth of the built-in function that began
/// it.
#[derive(Drop)]
pub struct VisitFrame {
    pub visited: Visited,
    pub visit: Visit,
    pub index: u64,
    pub element: Value,
}

/// A dispatch of an event waits for a listener at this place. Then come the listeners that are left there, and the places after it.
#[derive(Drop)]
pub struct DeliverFrame {
    pub event: ObjId,
    pub place: Place,
    pub round: Round,
    pub later: Places,
}

/// What waits for the end of another thing.
#[derive(Drop)]
pub enum Frame {
    Expr(ExprFrame),
    Name(NameFrame),
    Target(TargetFrame),
    Stmt(StmtFrame),
    Each(EachFrame),
    Case(CaseFrame),
    Called(CalledFrame),
    Visit(VisitFrame),
    Deliver(DeliverFrame),
}

/// A frame where it lies in memory, so that it is small to hand on. Contracts see it as the frame.
pub struct BoxedFrame {
    frame: Box<Frame>,
}

impl Model for BoxedFrame {
    ghost use Rattle.page_frames.specs.contracts.frame.Frame as one;
    ghost use Rattle.page_frames.specs.declared.frame.Frame.{Frame as OneFrame};

    ghost Value = { OneFrame };

    ghost coded = { one.the_row.coded };

    ghost view = { λ b. b.frame.value };
}

// A function of its own, so that the crates above cite it and do not prove it again.
impl Drop for BoxedFrame {
    fn drop(self) {
        let BoxedFrame { frame: _frame } = self;
    }
}

impl BoxedFrame {
    /// This frame.
    pub fn of(alloc: Global, frame: Frame) -> Result<BoxedFrame, OutOfMemory>
        ensures { IfOk result (λ boxed. boxed ≡ frame) }
    {
        Ok(BoxedFrame {
            frame: Box::new(alloc, frame)?,
        })
    }

    /// The frame, without memory.
    pub fn into_frame(self) -> Frame
        ensures { result ≡ self }
    {
        let BoxedFrame { frame } = self;
        Box::into_inner(frame)
    }
}

/// A call where it lies in memory. Contracts see it as the call.
pub struct BoxedCall {
    call: Box<CallFrame>,
}

impl Model for BoxedCall {
    ghost use Rattle.page_frames.specs.declared.frame.CallFrame.{CallFrame as OneCall};

    ghost Value = { OneCall };

    ghost view = { λ b. b.call.value };
}

// A function of its own, so that the crates above cite it and do not prove it again.
impl Drop for BoxedCall {
    fn drop(self) {
        let BoxedCall { call: _call } = self;
    }
}

impl BoxedCall {
    /// This call.
    pub fn of(alloc: Global, call: CallFrame) -> Result<BoxedCall, OutOfMemory>
        ensures { IfOk result (λ boxed. boxed ≡ call) }
    {
        Ok(BoxedCall {
            call: Box::new(alloc, call)?,
        })
    }

    /// The call, without memory.
    pub fn into_call(self) -> CallFrame
        ensures { result ≡ self }
    {
        let BoxedCall { call } = self;
        Box::into_inner(call)
    }
}

/// What begins: a node, a node that takes a value as the target of a for-in, a call, or the dispatch of an event at a node.
#[derive(Drop)]
pub enum Begin {
    Node(Spot),
    Target(Spot, Value),
    Call(BoxedCall),
    Deliver(ObjId, NodeId),
}

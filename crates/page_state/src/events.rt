//! What is done to events (DOM Level 2 Events, section 1.4).

ghost use Rattle.std.specs.Prelude.{◌≡◌, ◌+◌, ◌<◌, IfOk, OnOk, false, length, if◌then◌else◌};
ghost use Rattle.std.specs.Option.{option_copied};
ghost use Rattle.js_values.specs.declared.value.Value.TheVariants.{Object};
ghost use Rattle.page_host.specs.Paths.{phase_number};
ghost use Rattle.page_meaning.specs.Classes.{class_at, class_of, is_node_class};
ghost use Rattle.page_meaning.specs.Dispatch as dispatch;
ghost use Rattle.page_meaning.specs.Events as spec;
ghost use Rattle.page_meaning.specs.NodeRows.{parts_in};
ghost use Rattle.page_meaning.specs.Primitives.{changes_event, make_event as spec_make};
ghost use Rattle.page_meaning.specs.Tasks.{settled};
ghost use Rattle.page_state.specs.Does.{Does};
ghost use Rattle.page_state.specs.EventParts.{may_prevent, may_stop, with_parts};
ghost use Rattle.page_state.specs.Finding.{node_of as spec_node};

use crate::places::EVENT_PROTOTYPE;
use crate::state::State;
use js_core::{OutOfMemory, Units};
use js_values::{NodeId, ObjId, Value};
use object_heap::{Class, EventParts};
use page_host::{Listener, Phase, Place};

// What stands for stopped propagation in a phase, and for a prevented default.
const STOPPED: u8 = 4;

const PREVENTED: u8 = 8;

impl State {
    /// A new event.
    #[tactic(auto, unfolding(page_meaning::specs::Places::event_prototype_place))]
    pub fn make_event(&mut self) -> Result<ObjId, OutOfMemory>
        ensures { IfOk result (λ at. Does (λ _. spec_make) self.old at self.new) }
    {
        let parts = EventParts {
            kind: Units::of(self.alloc(), &[])?,
            bubbles: false,
            cancelable: false,
            begun: false,
            sent: false,
            target: None,
            current: None,
            phase: 0,
        };
        self.heap.alloc(Class::Event(parts), Some(EVENT_PROTOTYPE))
    }

    /// The parts of the event that an object is.
    pub fn event_parts(&self, at: ObjId) -> Option<&EventParts>
        ensures { option_copied result ≡ parts_in (class_of self.now (Object at)) }
    {
        match self.class(at) {
            Class::Event(parts) => Some(parts),
            Class::Plain
            | Class::List
            | Class::Page { .. }
            | Class::Native(_)
            | Class::Bound { .. }
            | Class::Fault
            | Class::Math
            | Class::Window
            | Class::Node(_) => None,
        }
    }

    /// The event is initialised, where it was not sent yet.
    #[tactic(auto, using(crate::proofs::EventSteps::no_event, crate::proofs::EventSteps::init_stays, crate::proofs::EventSteps::init_goes))]
    pub fn init_event(
        &mut self,
        at: ObjId,
        kind: Units,
        bubbles: bool,
        cancelable: bool,
    ) -> Result<(), OutOfMemory>
        ensures { OnOk result (Does (λ _. changes_event at (spec.initialises kind bubbles
            cancelable)) self.old tt self.new) }
    {
        let Some(parts) = self.event_parts(at) else {
            return Ok(());
        };
        if parts.sent {
            return Ok(());
        }
        let parts = EventParts {
            kind,
            bubbles,
            cancelable,
            begun: true,
            sent: false,
            target: parts.target,
            current: parts.current,
            phase: parts.phase,
        };
        self.heap.set_event(at, parts)
    }

    /// Lets the listeners of the current place end, while the event is under dispatch.
    #[tactic(auto, using(crate::proofs::EventSteps::no_event, crate::proofs::EventSteps::stop_stays, crate::proofs::EventSteps::stop_goes, crate::proofs::EventSteps::may_stop_only))]
    pub fn stop_propagation(&mut self, at: ObjId) -> Result<(), OutOfMemory>
        ensures { OnOk result (Does (λ _. changes_event at spec.stops) self.old tt self.new) }
    {
        let Some(parts) = self.event_parts(at) else {
            return Ok(());
        };
        if !may_stop(parts) {
            return Ok(());
        }
        let phase = stopped_phase(parts.phase);
        self.set_phase(at, phase)
    }

    /// Prevents the default of a cancelable event, while it is under dispatch.
    #[tactic(auto, using(crate::proofs::EventSteps::no_event, crate::proofs::EventSteps::prevent_stays, crate::proofs::EventSteps::prevent_goes, crate::proofs::EventSteps::may_prevent_only))]
    pub fn prevent_default(&mut self, at: ObjId) -> Result<(), OutOfMemory>
        ensures { OnOk result (Does (λ _. changes_event at spec.prevents) self.old tt self.new) }
    {
        let Some(parts) = self.event_parts(at) else {
            return Ok(());
        };
        if !may_prevent(parts) {
            return Ok(());
        }
        let phase = prevented_phase(parts.phase);
        self.set_phase(at, phase)
    }

    // The event gets the phase.
    fn set_phase(&mut self, at: ObjId, phase: u8) -> Result<(), OutOfMemory>
        ensures { OnOk result (self.new ≡ with_parts self.old at (λ parts. spec.with_phase parts
            phase)) }
    {
        let Some(parts) = self.event_parts(at) else {
            return Ok(());
        };
        let (sent, target, current) = (parts.sent, parts.target, parts.current);
        self.heap.set_dispatch(at, sent, target, current, phase)
    }

    /// Whether a dispatch of the event may begin: it was initialised, and not sent.
    pub fn may_begin(&self, at: ObjId) -> bool
        ensures { result ≡ spec.may_begin (dispatch.parts_at self.now at) }
    {
        match self.event_parts(at) {
            Some(parts) => parts.begun && !parts.sent,
            None => false,
        }
    }

    /// A dispatch of the event at the node begins.
    #[tactic(auto, using(crate::proofs::EventSteps::begin_unfit, crate::proofs::EventSteps::none_begins, crate::proofs::EventSteps::no_event, crate::proofs::EventSteps::begin_goes))]
    pub fn begin_dispatch(&mut self, at: ObjId, node: NodeId) -> Result<(), OutOfMemory>
        ensures { OnOk result (Does (λ _. changes_event at (spec.begins
            (dispatch.object_of_place node self.old))) self.old tt self.new) }
    {
        let target = self.host.object_of(node);
        if !self.is_node(target) {
            return Ok(());
        }
        if !self.may_begin(at) {
            return Ok(());
        }
        let Some(parts) = self.event_parts(at) else {
            return Ok(());
        };
        let (current, phase) = (parts.current, parts.phase);
        self.heap
            .set_dispatch(at, true, Some(target), current, phase)
    }

    /// The event is at the place. A mark of a prevented default stays.
    #[tactic(auto, using(crate::proofs::EventSteps::arrive_unfit, crate::proofs::EventSteps::no_event, crate::proofs::EventSteps::arrive_goes))]
    pub fn arrive(&mut self, at: ObjId, place: Place) -> Result<(), OutOfMemory>
        ensures { OnOk result (Does (λ _. changes_event at (spec.arrives
            (dispatch.object_of_place place.node self.old) place.phase)) self.old tt self.new) }
    {
        let current = self.host.object_of(place.node);
        if !self.is_node(current) {
            return Ok(());
        }
        let Some(parts) = self.event_parts(at) else {
            return Ok(());
        };
        let (sent, target) = (parts.sent, parts.target);
        let phase = phase_at(place.phase, is_prevented(parts.phase));
        self.heap
            .set_dispatch(at, sent, target, Some(current), phase)
    }

    /// The event is as after a dispatch.
    pub fn rest_event(&mut self, at: ObjId)
        ensures { Does (λ _. changes_event at spec.rests) self.old tt self.new }
    {
        self.heap.rest_event(at);
    }

    /// Events under dispatch become as after a dispatch. Others are not looked at, and no memory is taken.
    #[tactic(auto, using(crate::proofs::EventSteps::settled_is))]
    pub fn settle_events(&mut self)
        ensures { self.new ≡ settled self.old }
    {
        self.heap.rest_events();
    }

    /// Whether propagation was stopped.
    pub fn is_stopped(&self, at: ObjId) -> bool
        ensures { result ≡ spec.is_stopped (dispatch.parts_at self.now at).phase }
    {
        match self.event_parts(at) {
            Some(parts) => is_stopped(parts.phase),
            None => false,
        }
    }

    /// Whether the default was prevented.
    pub fn is_prevented(&self, at: ObjId) -> bool
        ensures { result ≡ spec.is_prevented (dispatch.parts_at self.now at).phase }
    {
        match self.event_parts(at) {
            Some(parts) => is_prevented(parts.phase),
            None => false,
        }
    }

    /// The listeners that a place takes for the event, in the order in which they were added.
    pub fn round(&self, at: ObjId, place: Place) -> Result<Vec<Listener>, OutOfMemory>
        ensures { IfOk result (λ ls. ls.items ≡ dispatch.round at place self.now) }
    {
        match self.event_parts(at) {
            Some(parts) => self.host.round(self.alloc(), &parts.kind, place),
            None => self
                .host
                .round(self.alloc(), &Units::of(self.alloc(), &[])?, place),
        }
    }

    /// Whether an object is that of a node that is there.
    pub fn is_node(&self, at: ObjId) -> bool
        ensures { result ≡ is_node_class self.now.host.nodes (class_at self.now at) }
    {
        self.node_of(&Value::Object(at)).is_some()
    }

    /// The node that a value is, where it is there.
    pub fn node_of(&self, value: &Value) -> Option<NodeId>
        ensures { result ≡ spec_node self.now value.now }
    {
        let Value::Object(at) = value else {
            return None;
        };
        match self.class(*at) {
            Class::Node(node) => if node.0 < self.host.dom().count() {
                Some(*node)
            } else {
                None
            },
            Class::Plain
            | Class::List
            | Class::Page { .. }
            | Class::Native(_)
            | Class::Bound { .. }
            | Class::Fault
            | Class::Math
            | Class::Window
            | Class::Event(_) => None,
        }
    }
}

// Whether it is under dispatch, and its propagation was not stopped.
fn may_stop(parts: &EventParts) -> bool
    ensures { result ≡ may_stop parts.now }
{
    parts.current.is_some() && !is_stopped(parts.phase)
}

// Whether it is under dispatch and can be cancelled, and was not.
fn may_prevent(parts: &EventParts) -> bool
    ensures { result ≡ may_prevent parts.now }
{
    parts.current.is_some() && parts.cancelable && !is_prevented(parts.phase)
}

#[tactic(auto, using(crate::proofs::EventSteps::unstopped_is_low))]
fn stopped_phase(phase: u8) -> u8
    requires { spec.is_stopped phase ≡ false }
    ensures { result ≡ phase + 4 }
{
    phase + STOPPED
}

#[tactic(auto, using(crate::proofs::EventSteps::unprevented_is_low))]
fn prevented_phase(phase: u8) -> u8
    requires { spec.is_prevented phase ≡ false }
    ensures { result ≡ phase + 8 }
{
    phase + PREVENTED
}

fn is_prevented(phase: u8) -> bool
    ensures { result ≡ spec.is_prevented phase }
{
    phase >= PREVENTED
}

fn is_stopped(phase: u8) -> bool
    ensures { result ≡ spec.is_stopped phase }
{
    (phase >= STOPPED && !is_prevented(phase)) || phase >= STOPPED + PREVENTED
}

// The phase, with the mark of a prevented default.
fn phase_at(phase: Phase, prevented: bool) -> u8
    ensures { result ≡ (if prevented then phase_number phase + 8 else phase_number phase) }
{
    if prevented {
        phase.number() + PREVENTED
    } else {
        phase.number()
    }
}

//! Listeners of a page, and the way of an event.

ghost use Rattle.std.specs.Prelude.{◌≡◌, ◌<◌, ◌++◌, length, map, reverse, IfOk, OnOk, OnErr};
ghost use Rattle.page_host.specs.Listeners as spec;
ghost use Rattle.page_host.specs.Paths.{event_path, in_phase};
ghost use Rattle.page_host.specs.Steps.{after_host, forgets, listens};
ghost use Rattle.page_host.specs.declared.path.Phase.TheVariants as phase;

use crate::host::PageHost;
use crate::listener::Listener;
use crate::path::{Phase, Place};
use indexmap::IndexSet;
use js_core::{OutOfMemory, Units};
use js_values::NodeId;
use std::alloc::Global;

impl PageHost {
    /// Whether the listener is registered: its node, type, function and whether it captures.
    pub fn is_registered(&self, listener: &Listener) -> bool
        ensures { result ≡ spec.is_registered self.now.listeners listener.now }
    {
        self.listeners.contains(listener)
    }

    /// Adds a listener, after all others; one that is registered stays as it is. After an error nothing has changed.
    pub fn listen(&mut self, listener: Listener) -> Result<(), OutOfMemory>
        requires { listener.node.0 < length self.old.nodes }
        ensures ok { OnOk result (self.new ≡ after_host self.old (listens listener)) }
        ensures err { OnErr result (self.new ≡ self.old) }
    {
        add(&mut self.listeners, listener)
    }

    /// Removes a listener, if it is registered. No memory.
    pub fn forget(&mut self, listener: &Listener)
        ensures { self.new ≡ after_host self.old (forgets listener.now) }
    {
        remove(&mut self.listeners, listener);
    }

    /// The listeners that a place takes for an event of the type, in the order in which they were added.
    pub fn round(
        &self,
        alloc: Global,
        kind: &Units,
        place: Place,
    ) -> Result<Vec<Listener>, OutOfMemory>
        ensures { IfOk result (λ ls. ls.items ≡ spec.round self.now.listeners kind.now place) }
    {
        taken(alloc, self.listeners.as_slice(), kind, place)
    }

    /// The way of an event through the nodes: down from the root of the target's tree, then the target, and up again where
    /// the event bubbles.
    pub fn path(
        &self,
        alloc: Global,
        node: NodeId,
        bubbles: bool,
    ) -> Result<Vec<Place>, OutOfMemory>
        requires { node.0 < length self.now.nodes }
        ensures { IfOk result (λ places. places.items ≡ event_path self.now.nodes node bubbles) }
    {
        let above = self.dom.above(alloc, node)?;
        let mut places = Vec::new(alloc);
        push_falling(above.as_slice(), &mut places)?;
        places.push(Place {
            node,
            phase: Phase::AtTarget,
        })?;
        if bubbles {
            push_rising(above.as_slice(), &mut places)?;
        }
        Ok(places)
    }
}

// Adds the listener, where none is the same.
fn add(listeners: &mut IndexSet<Listener>, listener: Listener) -> Result<(), OutOfMemory>
    ensures ok { OnOk result (listeners.new.keys ≡ spec.with_listener listeners.old.keys listener) }
    ensures err { OnErr result (listeners.new.keys ≡ listeners.old.keys) }
{
    listeners.insert(listener)?;
    Ok(())
}

// Removes the one that is the same.
fn remove(listeners: &mut IndexSet<Listener>, listener: &Listener)
    ensures { listeners.new.keys ≡ spec.without_listener listeners.old.keys listener.now }
{
    listeners.retain(|other| *listener != *other);
}

// Those that the place takes.
fn taken(
    alloc: Global,
    listeners: &[Listener],
    kind: &Units,
    place: Place,
) -> Result<Vec<Listener>, OutOfMemory>
    ensures { IfOk result (λ ls. ls.items ≡ spec.round listeners.now kind.now place) }
{
    let mut all = Vec::new(alloc);
    for listener in listeners {
        if listener.is_taken(kind, place) {
            all.push(listener.clone()?)?;
        }
    }
    Ok(all)
}

// The places on the way down, from the last of the nodes to the first.
fn push_falling(above: &[NodeId], places: &mut Vec<Place>) -> Result<(), OutOfMemory>
    ensures { OnOk result (places.new.items ≡ places.old.items
        ++ map (in_phase phase.Capturing) (reverse above.now)) }
{
    let mut left = above.len();
    while left > 0 {
        left -= 1;
        places.push(Place {
            node: above[left],
            phase: Phase::Capturing,
        })?;
    }
    Ok(())
}

// The places on the way up, from the first of the nodes to the last.
fn push_rising(above: &[NodeId], places: &mut Vec<Place>) -> Result<(), OutOfMemory>
    ensures { OnOk result (places.new.items ≡ places.old.items
        ++ map (in_phase phase.Bubbling) above.now) }
{
    for node in above {
        places.push(Place {
            node: *node,
            phase: Phase::Bubbling,
        })?;
    }
    Ok(())
}

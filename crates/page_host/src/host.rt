//! What the host keeps for a page.

ghost use Rattle.std.specs.Prelude.{◌≡◌, ◌<◌, ◌^◌, length};
ghost use Rattle.page_host.specs.Host.{new_host, object_of_node};

use crate::listener::Listener;
use dom_tree::Dom;
use indexmap::IndexSet;
use js_values::{NodeId, ObjId};
use std::alloc::Global;
use std::marker::Model;
use timer_queue::{Live, Queue};

/// What the host keeps for a page: the nodes, each with its object; the listeners in the order in which they were added; the live
/// timers, and the clock. Contracts see it as the record `Host`. It changes by steps (`HostStep`) and new nodes alone.
pub struct PageHost {
    pub(crate) dom: Dom,
    /// The object of each node, at the place of its id.
    pub(crate) objects: Vec<ObjId>,
    /// A set, so that one is added with no look at the others.
    pub(crate) listeners: IndexSet<Listener>,
    pub(crate) queue: Queue,
    /// Milliseconds since the page was read.
    pub(crate) clock: u64,
}

// A function of its own, so that the crates above cite it and do not prove it again.
impl Drop for PageHost {
    fn drop(self) {
        let PageHost {
            dom: _dom,
            objects: _objects,
            listeners: _listeners,
            queue: _queue,
            clock: _clock,
        } = self;
    }
}

impl Model for PageHost {
    ghost use Rattle.std.specs.Prelude.{◌<◌, ◌^◌};
    ghost use Rattle.page_host.specs.Host.{Host};
    ghost use Rattle.page_host.specs.Kept.{IsKept, host_of};

    ghost Value = { Host };

    ghost view = { λ h. host_of h.dom h.objects.items h.listeners.keys h.queue h.clock };

    ghost invariant = { λ h. IsKept h.dom h.objects.items h.clock };
}

impl PageHost {
    /// A page that was read: these nodes, each with its object at the place of its id, and nothing else.
    pub fn new(alloc: Global, dom: Dom, objects: Vec<ObjId>) -> PageHost
        requires { length objects.items ≡ length dom }
        ensures { result ≡ new_host dom objects.items }
    {
        PageHost {
            dom,
            objects,
            listeners: IndexSet::new(alloc),
            queue: Queue::new(alloc),
            clock: 0,
        }
    }

    /// The nodes.
    pub fn dom(&self) -> &Dom
        ensures { result.now ≡ self.now.nodes }
    {
        &self.dom
    }

    /// The object of the node; where the node is not there it is what stands for none.
    pub fn object_of(&self, node: NodeId) -> ObjId
        ensures { result ≡ object_of_node self.now.objects node }
    {
        object_at(self.objects.as_slice(), node)
    }

    /// The objects of the nodes, each at the place of its node's id.
    pub fn objects(&self) -> &[ObjId]
        ensures objects { result.now ≡ self.now.objects }
        ensures each { length self.now.objects ≡ length self.now.nodes }
    {
        self.objects.as_slice()
    }

    /// The listeners in the order in which they were added.
    pub fn listeners(&self) -> &[Listener]
        ensures { result.now ≡ self.now.listeners }
    {
        self.listeners.as_slice()
    }

    /// The live timers in starting order.
    pub fn timers(&self) -> &[Live]
        ensures { result.now ≡ self.now.timers }
    {
        self.queue.live()
    }

    /// The clock, in milliseconds since the page was read.
    pub fn clock(&self) -> u64
        ensures clock { result ≡ self.now.clock }
        ensures early { result < 2 ^ 60 }
    {
        self.clock
    }
}

/// The object of the node, of these, or what stands for none.
pub(crate) fn object_at(objects: &[ObjId], node: NodeId) -> ObjId
    ensures { result ≡ object_of_node objects.now node }
{
    match objects.get(node.0 as usize) {
        Some(at) => *at,
        None => ObjId(0),
    }
}

//! How trees of nodes are walked, without memory.

ghost use Rattle.std.specs.Prelude.{◌≡◌, ◌∷◌, ◌<◌, length, IfOk, IfSome, Some};
ghost use Rattle.std.specs.Option.{ForSome};
ghost use Rattle.dom_tree.specs.declared.walk.Visit.TheVariants as visit;
ghost use Rattle.dom_tree.specs.Content.{is_named};
ghost use Rattle.dom_tree.specs.Node.{AreThere, children_at, kind_at, nodes_above};
ghost use Rattle.dom_tree.specs.Trees.{find_id, first_named, has_id};
ghost use Rattle.dom_tree.specs.Visits.{IsIn, entered_with_id, visited, visits_after, visits_on};

use crate::dom::Dom;
use js_core::{OutOfMemory, Units};
use js_values::NodeId;
use std::alloc::Global;

/// A step of a walk: a node is entered before the nodes under it, and left after them.
#[derive(Clone, Copy)]
pub(crate) enum Visit {
    Enter(NodeId),
    Leave(NodeId),
}

impl Dom {
    /// The visit after this one in a walk of the tree under the root, or `None` at its end.
    pub(crate) fn visit_after(&self, root: NodeId, visit: Visit) -> Option<Visit>
        requires { IsIn self.now root.0 visit }
        ensures visits { visits_on self.now root.0 (Some visit) ≡ visit
            ∷ visits_on self.now root.0 result }
        ensures inside { IfSome result (λ v. IsIn self.now root.0 v) }
    {
        match visit {
            Visit::Enter(node) => self.visit_after_entering(root, node),
            Visit::Leave(node) => self.visit_after_leaving(root, node),
        }
    }

    fn visit_after_entering(&self, root: NodeId, node: NodeId) -> Option<Visit>
        requires { IsIn self.now root.0 (visit.Enter node) }
        ensures visits { visits_on self.now root.0 (Some (visit.Enter node)) ≡ visit.Enter node
            ∷ visits_on self.now root.0 result }
        ensures inside { IfSome result (λ v. IsIn self.now root.0 v) }
    {
        self.recall_sound();
        match self.first_child(node) {
            Some(child) => Some(Visit::Enter(child)),
            None => Some(Visit::Leave(node)),
        }
    }

    fn visit_after_leaving(&self, root: NodeId, node: NodeId) -> Option<Visit>
        requires { IsIn self.now root.0 (visit.Leave node) }
        ensures visits { visits_on self.now root.0 result ≡ visits_after self.now root.0 node.0 }
        ensures inside { IfSome result (λ v. IsIn self.now root.0 v) }
    {
        self.recall_sound();
        if node.0 == root.0 {
            return None;
        }
        if let Some(next) = self.next(node) {
            return Some(Visit::Enter(next));
        }
        match self.parent(node) {
            Some(parent) => Some(Visit::Leave(parent)),
            None => None,
        }
    }

    /// The first node in document order, in the document, whose attribute `id` is this text, or `None` exactly where there
    /// is none. No memory. It costs a walk of the document.
    pub fn find_id(&self, id: &Units) -> Option<NodeId>
        ensures found { result ≡ find_id self.now id.now }
        ensures there { ForSome result (λ k. k.0 < length self.now) }
    {
        self.recall_sound();
        let root = NodeId(0);
        let mut at = Some(Visit::Enter(root));
        while let Some(visit) = at {
            if let Some(found) = self.entered_with_id(visit, id) {
                return Some(found);
            }
            at = self.visit_after(root, visit);
        }
        None
    }

    // The node that is entered, where its attribute `id` is this text.
    fn entered_with_id(&self, visit: Visit, id: &Units) -> Option<NodeId>
        requires { (visited visit).0 < length self.now }
        ensures { result ≡ entered_with_id self.now id.now visit }
    {
        match visit {
            Visit::Enter(node) if self.has_id(node, id) => Some(node),
            _ => None,
        }
    }

    // Whether the attribute `id` of the node is this text.
    fn has_id(&self, node: NodeId, id: &Units) -> bool
        requires { node.0 < length self.now }
        ensures { result ≡ has_id self.now id.now node }
    {
        match self.content(node).attributes.find(b"id") {
            Some(value) => id == value,
            None => false,
        }
    }

    /// The nodes above the node: its parent first, and each node's parent after it, up to one that has none.
    pub fn above(&self, alloc: Global, node: NodeId) -> Result<Vec<NodeId>, OutOfMemory>
        requires { node.0 < length self.now }
        ensures above { IfOk result (λ nodes. nodes.items ≡ nodes_above self.now node) }
        ensures there { IfOk result (λ nodes. AreThere self.now nodes.items) }
    {
        let mut nodes = Vec::new(alloc);
        let mut at = self.parent(node);
        let count = self.count();
        for step in 0..count {
            let Some(parent) = at else {
                return Ok(nodes);
            };
            nodes.push(parent)?;
            at = self.parent(parent);
        }
        Ok(nodes)
    }

    /// The first child of the node that is an element of this name, or `None` exactly where there is none.
    pub fn child_named(&self, node: NodeId, name: &[u8]) -> Option<NodeId>
        requires { node.0 < length self.now }
        ensures first { result ≡ first_named self.now name.now (children_at self.now node.0) }
        ensures there { ForSome result (λ k. k.0 < length self.now) }
    {
        self.recall_sound();
        let mut at = self.first_child(node);
        while let Some(child) = at {
            if self.is_named(child, name) {
                return Some(child);
            }
            at = self.next(child);
        }
        None
    }

    // Whether the node is an element of this name.
    fn is_named(&self, node: NodeId, name: &[u8]) -> bool
        requires { node.0 < length self.now }
        ensures { result ≡ is_named name.now (kind_at self.now node.0) }
    {
        match self.name(node) {
            Some(found) => found.spells(name),
            None => false,
        }
    }
}

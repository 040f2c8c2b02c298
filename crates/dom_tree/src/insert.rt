//! How nodes are put under others, taken out and replaced (DOM Level 2 Core, interface Node).

ghost use Rattle.std.specs.Prelude.{◌≡◌, ◌<◌, length};
ghost use Rattle.std.specs.Option.{ForSome};
ghost use Rattle.dom_tree.specs.Change.{
  Answers,
  all_taken_out,
  breaks_hierarchy_where,
  has_other_element,
  has_third_element,
  inserted,
  insertion_error,
  is_above,
  is_misplaced,
  is_misplaced_for,
  is_missing,
  removal_error,
  replaced,
  replacement_error,
  taken_out,
};
ghost use Rattle.dom_tree.specs.Node.{children_at};

use crate::dom::{Dom, is_this};
use crate::fault::DomError;
use js_values::NodeId;

impl Dom {
    /// Puts the child under the parent, directly before the reference, which is a child of the parent, or at the end. A
    /// child that is in a tree is taken out before, and one that is the reference stays. Answers `Hierarchy` exactly where
    /// the parent is a text or a comment, or the child is the document or the parent or stands above it, or the document
    /// would get a text or a second element, and else `NotFound` exactly where the reference is no child of the parent;
    /// then nothing has changed. No memory. It costs the way from the parent to its root.
    pub fn insert_before(
        &mut self,
        parent: NodeId,
        child: NodeId,
        before: Option<NodeId>,
    ) -> Result<(), DomError>
        requires parent { parent.0 < length self.old }
        requires child { child.0 < length self.old }
        requires before { ForSome before (λ r. r.0 < length self.old) }
        ensures { Answers (insertion_error self.old parent child before)
            (inserted self.old parent child before) self.old self.new result }
    {
        self.recall_sound();
        let misplaced = self.is_misplaced(child);
        if self.breaks_hierarchy(parent, child, misplaced) {
            return Err(DomError::Hierarchy);
        }
        if self.is_missing(parent, before) {
            return Err(DomError::NotFound);
        }
        if is_this(child, before) {
            return Ok(());
        }
        self.take_out(child);
        self.put_under(parent, child, before);
        Ok(())
    }

    /// Takes the child out from under the parent. Answers `NotFound` exactly where it is no child of the parent; then
    /// nothing has changed. No memory.
    pub fn remove_child(&mut self, parent: NodeId, child: NodeId) -> Result<(), DomError>
        requires parent { parent.0 < length self.old }
        requires child { child.0 < length self.old }
        ensures { Answers (removal_error self.old parent child)
            (taken_out self.old child) self.old self.new result }
    {
        if self.is_missing(parent, Some(child)) {
            return Err(DomError::NotFound);
        }
        self.take_out(child);
        Ok(())
    }

    /// Puts the child under the parent in place of the old one, which is a child of the parent and is taken out. A child
    /// that is in a tree is taken out before, and one that is the old one stays. Answers as an insertion before the old
    /// one would, which does not count as the element of the document; then nothing has changed. No memory.
    pub fn replace_child(
        &mut self,
        parent: NodeId,
        child: NodeId,
        old: NodeId,
    ) -> Result<(), DomError>
        requires parent { parent.0 < length self.old }
        requires child { child.0 < length self.old }
        requires old { old.0 < length self.old }
        ensures { Answers (replacement_error self.old parent child old)
            (replaced self.old parent child old) self.old self.new result }
    {
        self.recall_sound();
        let misplaced = self.is_misplaced_for(child, old);
        if self.breaks_hierarchy(parent, child, misplaced) {
            return Err(DomError::Hierarchy);
        }
        if self.is_missing(parent, Some(old)) {
            return Err(DomError::NotFound);
        }
        if child.0 == old.0 {
            return Ok(());
        }
        self.take_out(child);
        let before = self.next(old);
        self.take_out(old);
        self.put_under(parent, child, before);
        Ok(())
    }

    /// Takes all children of the node out from under it. No memory.
    pub fn remove_children(&mut self, node: NodeId)
        requires { node.0 < length self.old }
        ensures { self.new ≡ all_taken_out self.old (children_at self.old node.0) }
    {
        while let Some(child) = self.first_child(node) {
            self.recall_sound();
            self.take_out(child);
        }
    }

    // Whether the child may not stand under the parent, where it is misplaced under the document or not.
    fn breaks_hierarchy(&self, parent: NodeId, child: NodeId, misplaced: bool) -> bool
        requires parent { parent.0 < length self.now }
        requires child { child.0 < length self.now }
        ensures { result ≡ breaks_hierarchy_where self.now parent.0 child.0 misplaced }
    {
        let holder = &self.content(parent).kind;
        !holder.may_have_children()
            || self.content(child).kind.is_document()
            || self.is_above(child, parent)
            || (holder.is_document() && misplaced)
    }

    // Whether the document may not get the child.
    fn is_misplaced(&self, child: NodeId) -> bool
        requires { child.0 < length self.now }
        ensures { result ≡ is_misplaced self.now child.0 }
    {
        let kind = &self.content(child).kind;
        kind.is_text() || (kind.is_element() && self.has_other_element(child))
    }

    // Whether the document may not get the child in place of the old one.
    fn is_misplaced_for(&self, child: NodeId, old: NodeId) -> bool
        requires { child.0 < length self.now }
        ensures { result ≡ is_misplaced_for self.now child.0 old.0 }
    {
        let kind = &self.content(child).kind;
        kind.is_text() || (kind.is_element() && self.has_third_element(child, old))
    }

    // Whether an element but this one is among the children of the document.
    fn has_other_element(&self, child: NodeId) -> bool
        ensures { result ≡ has_other_element self.now child.0 }
    {
        match self.document_element() {
            Some(element) => child.0 != element.0,
            None => false,
        }
    }

    // Whether an element but these two is among the children of the document.
    fn has_third_element(&self, child: NodeId, old: NodeId) -> bool
        ensures { result ≡ has_third_element self.now child.0 old.0 }
    {
        match self.document_element() {
            Some(element) => child.0 != element.0 && old.0 != element.0,
            None => false,
        }
    }

    // Whether there is a reference that is no child of the parent.
    fn is_missing(&self, parent: NodeId, before: Option<NodeId>) -> bool
        requires parent { parent.0 < length self.now }
        requires before { ForSome before (λ r. r.0 < length self.now) }
        ensures { result ≡ is_missing self.now parent.0 before }
    {
        match before {
            Some(reference) => !is_this(parent, self.parent(reference)),
            None => false,
        }
    }

    // Whether the node is this one or stands above it. A node without children stands above none.
    fn is_above(&self, node: NodeId, at: NodeId) -> bool
        requires node { node.0 < length self.now }
        requires at { at.0 < length self.now }
        ensures { result ≡ is_above self.now node.0 at.0 }
    {
        let count = self.count();
        if self.first_child(node).is_none() {
            return node.0 == at.0;
        }
        let mut at = at;
        for step in 0..count {
            if node.0 == at.0 {
                return true;
            }
            let Some(parent) = self.parent(at) else {
                return false;
            };
            at = parent;
        }
        false
    }
}

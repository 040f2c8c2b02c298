//! The nodes of a document, by age.

ghost use Rattle.std.specs.Prelude.{◌≡◌, ◌&&◌, ◌<◌, ℕ, length, IfErr, IfOk, IsTrue, OnOk, OnErr, true, false};
ghost use Rattle.std.specs.Option.{ForSome, option_to_list};
ghost use Rattle.dom_tree.specs.Change.{put_under, taken_out};
ghost use Rattle.dom_tree.specs.Content.{
  IsNameFault,
  has_text,
  kind_with_text,
  with_attribute,
  with_text,
  with_value,
  without_attribute,
};
ghost use Rattle.dom_tree.specs.Fits.{IsReady, top_with, top_without};
ghost use Rattle.dom_tree.specs.Links.{backward, place_of};
ghost use Rattle.dom_tree.specs.Name.{is_name};
ghost use Rattle.dom_tree.specs.Node.{
  children_at,
  document_alone,
  first_of,
  has,
  is_document,
  is_element,
  is_this,
  last_of,
  next_of,
  node_at,
  parent_at,
  previous_of,
  with_content,
  with_new,
};
ghost use Rattle.dom_tree.specs.Sound.{IsSound, document_element, elements_of, is_proper, takes_value};

use crate::attributes::Attributes;
use crate::content::{Content, Kind};
use crate::fault::{DomError, DomFault};
use crate::links::{Linked, Links, link_in, link_out};
use crate::names::is_name;
use js_core::{OutOfMemory, Units};
use js_values::NodeId;
use std::alloc::Global;
use std::marker::Model;

/// The nodes of a document, which contracts see as the list of them by age: a `NodeId` is a place. Each node has its
/// kind with its name or text, its attributes, its set value, its parent and the list of its children. Nodes form trees;
/// the first node is the document. What always holds is `IsSound` of `specs/Sound.antt`.
pub struct Dom {
    nodes: Vec<Linked>,
    /// The element among the children of the document.
    top: Option<NodeId>,
}

// A function of its own, so that the crates above cite it and do not prove it again.
impl Drop for Dom {
    fn drop(self) {
        let Dom {
            nodes: _nodes,
            top: _top,
        } = self;
    }
}

impl Model for Dom {
    ghost use Rattle.dom_tree.specs.Node.{Nodes};

    ghost Value = { Nodes };

    ghost use Rattle.dom_tree.specs.Content.{
      IsNameFault,
      has_text,
      kind_with_text,
      with_attribute,
      with_text,
      with_value,
      without_attribute,
    };
    ghost use Rattle.dom_tree.specs.Fits.{IsReady, top_with, top_without};
    ghost use Rattle.dom_tree.specs.Links.{AreLinked, nodes_of};

    ghost view = { λ d. nodes_of d.nodes.items };

    ghost invariant = { λ d. AreLinked d.nodes.items d.top };
}

impl Dom {
    /// The document alone, which is node 0.
    pub fn new(alloc: Global) -> Result<Dom, OutOfMemory>
        ensures { IfOk result (λ dom. dom ≡ document_alone) }
    {
        let mut nodes = Vec::new(alloc);
        nodes.push(Linked {
            content: Content {
                kind: Kind::Document,
                attributes: Attributes::new(alloc),
                value: None,
            },
            links: Links::NONE,
        })?;
        Ok(Dom { nodes, top: None })
    }

    /// The number of nodes, of which what always holds does.
    pub fn count(&self) -> u64
        ensures count { result ≡ length self.now }
        ensures sound { IsSound self.now }
    {
        self.nodes.len() as u64
    }

    // Recalls in proofs what always holds.
    pub(crate) fn recall_sound(&self)
        ensures { IsSound self.now }
    {
        let _ = &self.nodes;
    }

    /// One more node, the youngest, alone. After an error nothing has changed.
    pub(crate) fn push(&mut self, content: Content) -> Result<NodeId, OutOfMemory>
        requires proper { is_proper content ≡ true }
        requires no_document { is_document content.kind ≡ false }
        ensures id { IfOk result (λ at. at.0 ≡ length self.old) }
        ensures ok { OnOk result (self.new ≡ with_new self.old content) }
        ensures err { OnErr result (self.new ≡ self.old) }
    {
        let at = self.nodes.len() as u64;
        self.nodes.push(Linked {
            content,
            links: Links::NONE,
        })?;
        Ok(NodeId(at))
    }

    /// The node without its place.
    pub fn content(&self, node: NodeId) -> &Content
        requires { node.0 < length self.now }
        ensures { result.now ≡ (node_at self.now node.0).content }
    {
        &self.nodes[node.0 as usize].content
    }

    /// The parent of the node, or `None` exactly where it has none.
    pub fn parent(&self, node: NodeId) -> Option<NodeId>
        requires { node.0 < length self.now }
        ensures parent { result ≡ parent_at self.now node.0 }
        ensures among { (p : ℕ) → has node.0 (children_at self.now p) ≡ is_this p result }
        ensures there { ForSome result (λ p. p.0 < length self.now) }
    {
        self.nodes[node.0 as usize].links.parent
    }

    /// The first child of the node, or `None` exactly where it has none.
    pub fn first_child(&self, node: NodeId) -> Option<NodeId>
        requires { node.0 < length self.now }
        ensures first { result ≡ first_of (children_at self.now node.0) }
        ensures there { ForSome result (λ c. c.0 < length self.now) }
    {
        self.nodes[node.0 as usize].links.first
    }

    /// The last child of the node, or `None` exactly where it has none.
    pub fn last_child(&self, node: NodeId) -> Option<NodeId>
        requires { node.0 < length self.now }
        ensures last { result ≡ last_of (children_at self.now node.0) }
        ensures there { ForSome result (λ c. c.0 < length self.now) }
    {
        self.nodes[node.0 as usize].links.last
    }

    /// The node after this one under its parent, or `None` exactly where there is none.
    pub fn next(&self, node: NodeId) -> Option<NodeId>
        requires { node.0 < length self.now }
        ensures next { result ≡ next_of self.now node.0 }
        ensures there { ForSome result (λ c. c.0 < length self.now) }
    {
        self.nodes[node.0 as usize].links.next
    }

    /// The node before this one under its parent, or `None` exactly where there is none.
    pub fn previous(&self, node: NodeId) -> Option<NodeId>
        requires { node.0 < length self.now }
        ensures previous { result ≡ previous_of self.now node.0 }
        ensures there { ForSome result (λ c. c.0 < length self.now) }
    {
        self.nodes[node.0 as usize].links.previous
    }

    /// The element among the children of the document, of which there is at most one.
    pub fn document_element(&self) -> Option<NodeId>
        ensures only { elements_of self.now ≡ option_to_list result }
        ensures first { result ≡ document_element self.now }
        ensures there { ForSome result (λ k. k.0 < length self.now) }
    {
        self.top
    }

    /// The text of the text or comment becomes another. No memory.
    pub fn set_text(&mut self, node: NodeId, text: Units)
        requires there { node.0 < length self.old }
        requires text { IsTrue (has_text (node_at self.old node.0).content.kind) }
        ensures { self.new ≡ with_content self.old node
            (with_text (node_at self.old node.0).content text) }
    {
        let kind = &mut self.nodes[node.0 as usize].content.kind;
        *kind = kind_with_text(kind, text);
    }

    /// The value of the `input` or `textarea` element is set. No memory.
    pub fn set_value(&mut self, node: NodeId, text: Units)
        requires there { node.0 < length self.old }
        requires value { IsTrue (takes_value (node_at self.old node.0).content.kind) }
        ensures { self.new ≡ with_content self.old node
            (with_value (node_at self.old node.0).content text) }
    {
        self.nodes[node.0 as usize].content.value = Some(text);
    }

    /// The attribute whose name is this one in lower case takes the value: one that is there keeps its place, and a new
    /// one is the last. Answers `BadName` exactly where the name is none. After an error nothing has changed.
    pub fn set_attribute(
        &mut self,
        node: NodeId,
        name: &Units,
        value: &Units,
    ) -> Result<(), DomFault>
        requires there { node.0 < length self.old }
        requires element { IsTrue (is_element (node_at self.old node.0).content.kind) }
        ensures ok { OnOk result (self.new ≡ with_content self.old node
            (with_attribute (node_at self.old node.0).content name.now value.now)) }
        ensures named { OnOk result (is_name name.now ≡ true) }
        ensures err { IfErr result (λ e. IsNameFault name.now e) }
        ensures kept { OnErr result (self.new ≡ self.old) }
    {
        if !is_name(name) {
            return Err(DomFault::Cause(DomError::BadName));
        }
        let value = value.clone()?;
        let attributes = &mut self.nodes[node.0 as usize].content.attributes;
        attributes.set(name, value)?;
        Ok(())
    }

    /// The attribute whose name is this one in lower case is gone, if there is one. No memory.
    pub fn remove_attribute(&mut self, node: NodeId, name: &Units)
        requires there { node.0 < length self.old }
        requires element { IsTrue (is_element (node_at self.old node.0).content.kind) }
        ensures { self.new ≡ with_content self.old node
            (without_attribute (node_at self.old node.0).content name.now) }
    {
        let attributes = &mut self.nodes[node.0 as usize].content.attributes;
        attributes.remove(name);
    }

    /// The node is taken out from under its parent, if it has one.
    pub(crate) fn take_out(&mut self, child: NodeId)
        requires { child.0 < length self.old }
        ensures { self.new ≡ taken_out self.old child }
    {
        let Some(parent) = self.nodes[child.0 as usize].links.parent else {
            return;
        };
        link_out(self.nodes.as_mut_slice(), parent, child);
        self.top = top_without(child, self.top);
    }

    /// The node, which has no parent, is put under one, directly before the reference or at the end.
    pub(crate) fn put_under(&mut self, parent: NodeId, child: NodeId, before: Option<NodeId>)
        requires parent { parent.0 < length self.old }
        requires child { child.0 < length self.old }
        requires ready { IsReady self.old parent child before (length self.old) }
        ensures { self.new ≡ put_under self.old parent child before }
    {
        let holder = &self.nodes[parent.0 as usize].content.kind;
        let gets = gets_element(holder, &self.nodes[child.0 as usize].content.kind);
        let behind = backward(self.nodes.as_slice(), parent, before);
        link_in(self.nodes.as_mut_slice(), parent, behind, child, before);
        self.top = top_with(child, gets, self.top);
    }
}

// The kind of a text or comment, with another text.
fn kind_with_text(kind: &Kind, text: Units) -> Kind
    requires { IsTrue (has_text kind.now) }
    ensures { result ≡ kind_with_text kind.now text }
{
    match kind {
        Kind::Text(_) => Kind::Text(text),
        _ => Kind::Comment(text),
    }
}

// Whether the parent is the document and the child an element.
fn gets_element(parent: &Kind, child: &Kind) -> bool
    ensures { result ≡ is_document parent.now && is_element child.now }
{
    parent.is_document() && child.is_element()
}

// The element of the document after the node is taken out.
fn top_without(child: NodeId, top: Option<NodeId>) -> Option<NodeId>
    ensures { result ≡ top_without child.0 top }
{
    if is_this(child, top) { None } else { top }
}

// The element of the document after the node is put in, where it gets to be it or not.
fn top_with(child: NodeId, gets: bool, top: Option<NodeId>) -> Option<NodeId>
    ensures { result ≡ top_with child gets top }
{
    if gets { Some(child) } else { top }
}

/// Whether there is a node and it is this one.
pub(crate) fn is_this(node: NodeId, other: Option<NodeId>) -> bool
    ensures { result ≡ is_this node.0 other }
{
    match other {
        Some(other) => node.0 == other.0,
        None => false,
    }
}

// The link backward among the children of the parent: to the last child, or to the one before this child.
fn backward(nodes: &[Linked], parent: NodeId, at: Option<NodeId>) -> Option<NodeId>
    requires parent { parent.0 < length nodes.now }
    requires at { ForSome at (λ c. c.0 < length nodes.now) }
    ensures { result ≡ backward nodes.now (place_of parent.0 at) }
{
    match at {
        Some(child) => nodes[child.0 as usize].links.previous,
        None => nodes[parent.0 as usize].links.last,
    }
}

//! New nodes, and what a node is.

ghost use Rattle.std.specs.Prelude.{◌≡◌, ◌<◌, length, IfErr, IfOk, OnOk, OnErr, true, option_copied, option_map, slice_get};
ghost use Rattle.std.specs.Map.Iter.{deref_pair};
ghost use Rattle.dom_tree.specs.declared.content.Kind.TheVariants as kind;
ghost use Rattle.js_core.specs.declared.memory.Failure.TheVariants as fault;
ghost use Rattle.dom_tree.specs.Attributes.{value_of};
ghost use Rattle.dom_tree.specs.Content.{IsNameFault, name_of, new_content, text_of, type_of};
ghost use Rattle.dom_tree.specs.Name.{folded, is_name};
ghost use Rattle.dom_tree.specs.Node.{node_at, with_new};

use crate::attributes::Attributes;
use crate::content::{Content, Kind};
use crate::dom::Dom;
use crate::fault::{DomError, DomFault};
use crate::names::{fold, is_name};
use js_core::Units;
use js_values::NodeId;
use std::alloc::Global;

impl Dom {
    /// A new element, alone, whose name is this one in lower case. Answers `BadName` exactly where the name is none. After
    /// an error nothing has changed.
    pub fn create_element(&mut self, alloc: Global, name: &Units) -> Result<NodeId, DomFault>
        ensures id { IfOk result (λ at. at.0 ≡ length self.old) }
        ensures ok { OnOk result (self.new ≡ with_new self.old
            (new_content (kind.Element (folded name.now)))) }
        ensures named { OnOk result (is_name name.now ≡ true) }
        ensures err { IfErr result (λ e. IsNameFault name.now e) }
        ensures kept { OnErr result (self.new ≡ self.old) }
    {
        if !is_name(name) {
            return Err(DomFault::Cause(DomError::BadName));
        }
        let name = fold(alloc, name)?;
        Ok(self.push(new_content(alloc, Kind::Element(name)))?)
    }

    /// A new text, alone. The only error is want of memory, after which nothing has changed.
    pub fn create_text(&mut self, alloc: Global, text: &Units) -> Result<NodeId, DomFault>
        ensures id { IfOk result (λ at. at.0 ≡ length self.old) }
        ensures ok { OnOk result (self.new ≡ with_new self.old (new_content (kind.Text text.now))) }
        ensures err { IfErr result (λ e. e ≡ fault.OutOfMemory) }
        ensures kept { OnErr result (self.new ≡ self.old) }
    {
        let text = text.clone()?;
        Ok(self.push(new_content(alloc, Kind::Text(text)))?)
    }

    /// A new comment, alone. The only error is want of memory, after which nothing has changed.
    pub fn create_comment(&mut self, alloc: Global, text: &Units) -> Result<NodeId, DomFault>
        ensures id { IfOk result (λ at. at.0 ≡ length self.old) }
        ensures ok { OnOk result (self.new ≡ with_new self.old
            (new_content (kind.Comment text.now))) }
        ensures err { IfErr result (λ e. e ≡ fault.OutOfMemory) }
        ensures kept { OnErr result (self.new ≡ self.old) }
    {
        let text = text.clone()?;
        Ok(self.push(new_content(alloc, Kind::Comment(text)))?)
    }

    /// The number of the node's kind: 1 of an element, 3 of a text, 8 of a comment, 9 of the document.
    pub fn node_type(&self, node: NodeId) -> u8
        requires { node.0 < length self.now }
        ensures { result ≡ type_of (node_at self.now node.0).content.kind }
    {
        match &self.content(node).kind {
            Kind::Element(_) => 1,
            Kind::Text(_) => 3,
            Kind::Comment(_) => 8,
            Kind::Document => 9,
        }
    }

    /// The name of the element, in lower case, or `None` exactly where the node is none.
    pub fn name(&self, node: NodeId) -> Option<&Units>
        requires { node.0 < length self.now }
        ensures { option_copied result ≡ name_of (node_at self.now node.0).content.kind }
    {
        match &self.content(node).kind {
            Kind::Element(name) => Some(name),
            _ => None,
        }
    }

    /// The text of the text or comment, or `None` exactly where the node is none.
    pub fn text(&self, node: NodeId) -> Option<&Units>
        requires { node.0 < length self.now }
        ensures { option_copied result ≡ text_of (node_at self.now node.0).content.kind }
    {
        match &self.content(node).kind {
            Kind::Text(text) => Some(text),
            Kind::Comment(text) => Some(text),
            _ => None,
        }
    }

    /// The value that was set of the node, or `None` exactly where none was.
    pub fn set_value_of(&self, node: NodeId) -> Option<&Units>
        requires { node.0 < length self.now }
        ensures { option_copied result ≡ (node_at self.now node.0).content.value }
    {
        self.content(node).value.as_ref()
    }

    /// The value of the attribute whose name is this one in lower case, or `None` exactly where there is none.
    pub fn attribute(&self, node: NodeId, name: &Units) -> Option<&Units>
        requires { node.0 < length self.now }
        ensures { option_copied result ≡ value_of (folded name.now)
            (node_at self.now node.0).content.attributes }
    {
        self.content(node).attributes.get(name)
    }

    /// The attribute at the place, in order of first setting, or `None` exactly past the last.
    pub fn attribute_at(&self, node: NodeId, index: u64) -> Option<(&Units, &Units)>
        requires { node.0 < length self.now }
        ensures { option_map deref_pair result
            ≡ slice_get (node_at self.now node.0).content.attributes index }
    {
        self.content(node).attributes.at(index as usize)
    }
}

// A node of the kind, without attributes.
fn new_content(alloc: Global, kind: Kind) -> Content
    ensures { result ≡ new_content kind }
{
    Content {
        kind,
        attributes: Attributes::new(alloc),
        value: None,
    }
}

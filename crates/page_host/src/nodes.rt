//! What is done to the nodes of a page.

ghost use Rattle.std.specs.Prelude.{◌≡◌, ◌<◌, length, IfErr, IsTrue, OnOk, OnErr, false, true};
ghost use Rattle.std.specs.Option.{ForSome};
ghost use Rattle.dom_tree.specs.Change.{insertion_error, removal_error, replacement_error};
ghost use Rattle.dom_tree.specs.Content.{IsNameFault, has_text};
ghost use Rattle.dom_tree.specs.Name.{folded, is_name};
ghost use Rattle.dom_tree.specs.Node.{is_element, kind_at};
ghost use Rattle.dom_tree.specs.Sound.{takes_value};
ghost use Rattle.dom_tree.specs.Steps.{drops_attribute, empties, inserts, replaces, sets_attribute, sets_text, sets_value, takes_out};
ghost use Rattle.page_host.specs.Answers.{answer_of};
ghost use Rattle.page_host.specs.HostNames.{is_handler};
ghost use Rattle.page_host.specs.Steps.{after_host, in_nodes};

use crate::host::PageHost;
use dom_tree::{DomError, DomFault};
use js_core::Units;
use js_values::{NodeId, ObjId};
use std::alloc::Global;

impl PageHost {
    /// Puts the child under the parent, directly before the reference, or at the end. Answers as `Dom::insert_before`; after an error
    /// nothing has changed. No memory.
    pub fn insert_before(
        &mut self,
        parent: NodeId,
        child: NodeId,
        before: Option<NodeId>,
    ) -> Result<(), DomError>
        requires parent { parent.0 < length self.old.nodes }
        requires child { child.0 < length self.old.nodes }
        requires before { ForSome before (λ r. r.0 < length self.old.nodes) }
        ensures answer { result ≡ answer_of (insertion_error self.old.nodes parent child before) }
        ensures step { self.new ≡ after_host self.old (in_nodes (inserts parent child before)) }
    {
        self.dom.insert_before(parent, child, before)
    }

    /// Puts the child under the parent in place of the old one, which is taken out. Answers as `Dom::replace_child`; after an error
    /// nothing has changed. No memory.
    pub fn replace_child(
        &mut self,
        parent: NodeId,
        child: NodeId,
        old: NodeId,
    ) -> Result<(), DomError>
        requires parent { parent.0 < length self.old.nodes }
        requires child { child.0 < length self.old.nodes }
        requires old { old.0 < length self.old.nodes }
        ensures answer { result ≡ answer_of (replacement_error self.old.nodes parent child old) }
        ensures step { self.new ≡ after_host self.old (in_nodes (replaces parent child old)) }
    {
        self.dom.replace_child(parent, child, old)
    }

    /// Takes the child out from under the parent. Answers `NotFound` exactly where it is no child of the parent; then
    /// nothing has changed. No memory.
    pub fn remove_child(&mut self, parent: NodeId, child: NodeId) -> Result<(), DomError>
        requires parent { parent.0 < length self.old.nodes }
        requires child { child.0 < length self.old.nodes }
        ensures answer { result ≡ answer_of (removal_error self.old.nodes parent child) }
        ensures step { OnOk result (self.new ≡ after_host self.old (in_nodes (takes_out child))) }
        ensures err { OnErr result (self.new ≡ self.old) }
    {
        self.dom.remove_child(parent, child)
    }

    /// Takes all children of the node out from under it. No memory.
    pub fn remove_children(&mut self, node: NodeId)
        requires { node.0 < length self.old.nodes }
        ensures { self.new ≡ after_host self.old (in_nodes (empties node)) }
    {
        self.dom.remove_children(node);
    }

    /// The text of the text or comment becomes another. No memory.
    pub fn set_text(&mut self, node: NodeId, text: Units)
        requires there { node.0 < length self.old.nodes }
        requires text { IsTrue (has_text (kind_at self.old.nodes node.0)) }
        ensures { self.new ≡ after_host self.old (in_nodes (sets_text node text)) }
    {
        self.dom.set_text(node, text);
    }

    /// The value of the `input` or `textarea` element is set. No memory.
    pub fn set_value(&mut self, node: NodeId, text: Units)
        requires there { node.0 < length self.old.nodes }
        requires value { IsTrue (takes_value (kind_at self.old.nodes node.0)) }
        ensures { self.new ≡ after_host self.old (in_nodes (sets_value node text)) }
    {
        self.dom.set_value(node, text);
    }

    /// The attribute whose name is this one in lower case, which does not begin with `on`, takes the value: one that is there keeps its
    /// place, and a new one is the last. Answers `BadName` exactly where the name is none. After an error nothing has changed.
    pub fn set_attribute(
        &mut self,
        node: NodeId,
        name: &Units,
        value: &Units,
    ) -> Result<(), DomFault>
        requires there { node.0 < length self.old.nodes }
        requires element { IsTrue (is_element (kind_at self.old.nodes node.0)) }
        requires plain { is_handler (folded name.now) ≡ false }
        ensures ok { OnOk result (self.new ≡ after_host self.old
            (in_nodes (sets_attribute node name.now value.now))) }
        ensures named { OnOk result (is_name name.now ≡ true) }
        ensures err { IfErr result (λ e. IsNameFault name.now e) }
        ensures kept { OnErr result (self.new ≡ self.old) }
    {
        self.dom.set_attribute(node, name, value)
    }

    /// The attribute whose name is this one in lower case is gone, if there is one. No memory.
    pub fn remove_attribute(&mut self, node: NodeId, name: &Units)
        requires there { node.0 < length self.old.nodes }
        requires element { IsTrue (is_element (kind_at self.old.nodes node.0)) }
        ensures { self.new ≡ after_host self.old (in_nodes (drops_attribute node name.now)) }
    {
        self.dom.remove_attribute(node, name);
    }
}

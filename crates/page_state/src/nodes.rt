//! What is done to the nodes of a page (DOM Level 2 Core).

ghost use Rattle.std.specs.Prelude.{◌≡◌, ◌<◌, IfOk, IsTrue, Ok, OnErr, OnOk, Some, length, true};
ghost use Rattle.std.specs.Option.{ForSome};
ghost use Rattle.dom_tree.specs.declared.content.Kind.TheVariants as kind;
ghost use Rattle.dom_tree.specs.Change.{insertion_error, removal_error, replacement_error};
ghost use Rattle.dom_tree.specs.Node.{is_element, kind_at};
ghost use Rattle.dom_tree.specs.Steps.{drops_attribute, empties, inserts, replaces, takes_out};
ghost use Rattle.object_heap.specs.declared.object.Class.TheVariants.{Node};
ghost use Rattle.object_heap.specs.Heap.{made, new_object};
ghost use Rattle.page_host.specs.Answers.{answer_of};
ghost use Rattle.page_host.specs.HostNames.{node_has, text_step};
ghost use Rattle.page_meaning.specs.NodeRows.{set_attribute as spec_set};
ghost use Rattle.page_meaning.specs.Places.{node_prototype};
ghost use Rattle.page_meaning.specs.Primitives.{changes_nodes, make_node};
ghost use Rattle.page_meaning.specs.Store.{with_heap};
ghost use Rattle.page_state.specs.Does.{Does, Gives, itself};
ghost use Rattle.page_state.specs.Made.{IsElementMade};

use crate::fault::Fault;
use crate::places::NODE_PROTOTYPE;
use crate::state::State;
use dom_tree::{DomError, DomFault, is_name};
use js_core::{OutOfMemory, Units};
use js_values::{NodeId, ObjId, Throw, Value};
use object_heap::Class;
use page_host::{HostName, folds_to_handler};

impl State {
    /// A new element, alone, of this name in lower case, and its object; `None` exactly where the name is none.
    #[tactic(auto, using(crate::proofs::HostSteps::node_made, crate::proofs::HostSteps::element_fits))]
    pub fn make_element(&mut self, name: &Units) -> Result<Option<ObjId>, OutOfMemory>
        ensures { IfOk result (λ made. IsElementMade name.now self.old made self.new) }
    {
        let alloc = self.alloc();
        let at = ObjId(self.heap.count());
        match self.host.create_element(alloc, name, at) {
            Ok(node) => Ok(Some(self.make_node_object(node)?)),
            Err(DomFault::Cause(_)) => Ok(None),
            Err(DomFault::OutOfMemory) => Err(OutOfMemory),
        }
    }

    /// A new text, alone, and its object.
    #[tactic(auto, using(crate::proofs::HostSteps::node_made))]
    pub fn make_text(&mut self, text: &Units) -> Result<ObjId, OutOfMemory>
        ensures { IfOk result (λ at. Does (λ _. make_node (kind.Text text.now)) self.old at
            self.new) }
    {
        let alloc = self.alloc();
        let at = ObjId(self.heap.count());
        let node = new_node(self.host.create_text(alloc, text, at))?;
        self.make_node_object(node)
    }

    /// A new comment, alone, and its object.
    #[tactic(auto, using(crate::proofs::HostSteps::node_made))]
    pub fn make_comment(&mut self, text: &Units) -> Result<ObjId, OutOfMemory>
        ensures { IfOk result (λ at. Does (λ _. make_node (kind.Comment text.now)) self.old at
            self.new) }
    {
        let alloc = self.alloc();
        let at = ObjId(self.heap.count());
        let node = new_node(self.host.create_comment(alloc, text, at))?;
        self.make_node_object(node)
    }

    // The object of a new node.
    #[tactic(auto, unfolding(page_meaning::specs::Places::node_prototype_place))]
    fn make_node_object(&mut self, node: NodeId) -> Result<ObjId, OutOfMemory>
        ensures id { IfOk result (λ at. at.0 ≡ length self.old.heap.objects) }
        ensures made { OnOk result (self.new ≡ with_heap self.old
            (made self.old.heap (new_object (Node node) (Some node_prototype)))) }
    {
        self.heap.alloc(Class::Node(node), Some(NODE_PROTOTYPE))
    }

    /// Puts the child under the parent, directly before the reference, or at the end.
    #[tactic(auto, using(crate::proofs::HostSteps::none_inserted))]
    pub fn insert_before(
        &mut self,
        parent: NodeId,
        child: NodeId,
        before: Option<NodeId>,
    ) -> Result<(), DomError>
        requires parent { parent.0 < length self.old.host.nodes }
        requires child { child.0 < length self.old.host.nodes }
        requires before { ForSome before (λ r. r.0 < length self.old.host.nodes) }
        ensures answer { result ≡ answer_of (insertion_error self.old.host.nodes parent child
            before) }
        ensures step { Does (λ _. changes_nodes (inserts parent child before)) self.old tt
            self.new }
        ensures err { OnErr result (self.new ≡ self.old) }
    {
        self.host.insert_before(parent, child, before)
    }

    /// Puts the child under the parent in place of the old one.
    #[tactic(auto, using(crate::proofs::HostSteps::none_replaced))]
    pub fn replace_child(
        &mut self,
        parent: NodeId,
        child: NodeId,
        old: NodeId,
    ) -> Result<(), DomError>
        requires parent { parent.0 < length self.old.host.nodes }
        requires child { child.0 < length self.old.host.nodes }
        requires old { old.0 < length self.old.host.nodes }
        ensures answer { result ≡ answer_of (replacement_error self.old.host.nodes parent child
            old) }
        ensures step { Does (λ _. changes_nodes (replaces parent child old)) self.old tt self.new }
        ensures err { OnErr result (self.new ≡ self.old) }
    {
        self.host.replace_child(parent, child, old)
    }

    /// Takes the child out from under the parent.
    pub fn remove_child(&mut self, parent: NodeId, child: NodeId) -> Result<(), DomError>
        requires parent { parent.0 < length self.old.host.nodes }
        requires child { child.0 < length self.old.host.nodes }
        ensures answer { result ≡ answer_of (removal_error self.old.host.nodes parent child) }
        ensures step { OnOk result (Does (λ _. changes_nodes (takes_out child)) self.old tt
            self.new) }
        ensures err { OnErr result (self.new ≡ self.old) }
    {
        self.host.remove_child(parent, child)
    }

    /// Takes out all children.
    pub fn remove_children(&mut self, node: NodeId)
        requires { node.0 < length self.old.host.nodes }
        ensures { Does (λ _. changes_nodes (empties node)) self.old tt self.new }
    {
        self.host.remove_children(node);
    }

    /// `setAttribute` of an element: a handler is refused before the name is judged.
    #[tactic(auto, using(crate::proofs::HostSteps::attribute_refused, crate::proofs::HostSteps::attribute_unnamed, crate::proofs::HostSteps::attribute_set))]
    pub fn set_attribute(
        &mut self,
        node: NodeId,
        name: &Units,
        value: &Units,
    ) -> Result<Value, Fault>
        requires there { node.0 < length self.old.host.nodes }
        requires element { IsTrue (is_element (kind_at self.old.host.nodes node.0)) }
        ensures { Gives itself (λ _. spec_set node name.now value.now) self.old self.new result }
    {
        if folds_to_handler(name) {
            return Err(self.raise(Throw::WrongArgument));
        }
        if !is_name(name) {
            return Err(self.raise(Throw::InvalidCharacter));
        }
        match self.host.set_attribute(node, name, value) {
            Ok(()) => Ok(Value::Undefined),
            Err(_) => Err(Fault::OutOfMemory),
        }
    }

    /// A text is put at a host name that takes one; an element's `textContent` is filled anew instead.
    pub fn put_text(&mut self, node: NodeId, name: HostName, text: Units) -> Result<(), OutOfMemory>
        requires there { node.0 < length self.old.host.nodes }
        requires has { node_has (kind_at self.old.host.nodes node.0) name ≡ true }
        ensures { OnOk result (Does (λ _. changes_nodes (text_step node name text)) self.old tt
            self.new) }
    {
        let alloc = self.alloc();
        self.host.put_text(alloc, node, name, text)
    }

    /// Removes an attribute of an element, where there is one.
    pub fn remove_attribute(&mut self, node: NodeId, name: &Units)
        requires there { node.0 < length self.old.host.nodes }
        requires element { IsTrue (is_element (kind_at self.old.host.nodes node.0)) }
        ensures { Does (λ _. changes_nodes (drops_attribute node name.now)) self.old tt self.new }
    {
        self.host.remove_attribute(node, name);
    }
}

// The new node; only memory can be missing.
fn new_node(answer: Result<NodeId, DomFault>) -> Result<NodeId, OutOfMemory>
    ensures { IfOk result (λ node. answer ≡ Ok node) }
{
    match answer {
        Ok(node) => Ok(node),
        Err(DomFault::Cause(_)) | Err(DomFault::OutOfMemory) => Err(OutOfMemory),
    }
}

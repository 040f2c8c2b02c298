//! New nodes of a page, each with its object.

ghost use Rattle.std.specs.Prelude.{◌≡◌, length, IfErr, IfOk, OnErr, OnOk, true};
ghost use Rattle.dom_tree.specs.Content.{IsNameFault};
ghost use Rattle.dom_tree.specs.Name.{folded, is_name};
ghost use Rattle.dom_tree.specs.Sound.{IsSound};
ghost use Rattle.dom_tree.specs.declared.content.Kind.TheVariants as kind;
ghost use Rattle.js_core.specs.declared.memory.Failure.TheVariants as fault;
ghost use Rattle.page_host.specs.Steps.{with_new_node};

use crate::host::PageHost;
use dom_tree::{Dom, DomError, DomFault, is_name};
use js_core::Units;
use js_values::{NodeId, ObjId};
use std::alloc::Global;

impl PageHost {
    /// A new element with this object, alone, whose name is this one in lower case. Answers `BadName` exactly where the name is none.
    /// After an error nothing has changed.
    pub fn create_element(
        &mut self,
        alloc: Global,
        name: &Units,
        object: ObjId,
    ) -> Result<NodeId, DomFault>
        ensures id { IfOk result (λ at. at.0 ≡ length self.old.nodes) }
        ensures ok { OnOk result (self.new ≡ with_new_node self.old
            (kind.Element (folded name.now)) object) }
        ensures named { OnOk result (is_name name.now ≡ true) }
        ensures err { IfErr result (λ e. IsNameFault name.now e) }
        ensures kept { OnErr result (self.new ≡ self.old) }
    {
        if !is_name(name) {
            return Err(DomFault::Cause(DomError::BadName));
        }
        self.objects.reserve(1)?;
        let node = self.dom.create_element(alloc, name)?;
        recall_sound(&self.dom);
        self.objects.push_reserved(object);
        Ok(node)
    }

    /// A new text with this object, alone. The only error is want of memory, after which nothing has changed.
    pub fn create_text(
        &mut self,
        alloc: Global,
        text: &Units,
        object: ObjId,
    ) -> Result<NodeId, DomFault>
        ensures id { IfOk result (λ at. at.0 ≡ length self.old.nodes) }
        ensures ok { OnOk result (self.new ≡ with_new_node self.old
            (kind.Text text.now) object) }
        ensures err { IfErr result (λ e. e ≡ fault.OutOfMemory) }
        ensures kept { OnErr result (self.new ≡ self.old) }
    {
        self.objects.reserve(1)?;
        let node = self.dom.create_text(alloc, text)?;
        self.objects.push_reserved(object);
        Ok(node)
    }

    /// A new comment with this object, alone. The only error is want of memory, after which nothing has changed.
    pub fn create_comment(
        &mut self,
        alloc: Global,
        text: &Units,
        object: ObjId,
    ) -> Result<NodeId, DomFault>
        ensures id { IfOk result (λ at. at.0 ≡ length self.old.nodes) }
        ensures ok { OnOk result (self.new ≡ with_new_node self.old
            (kind.Comment text.now) object) }
        ensures err { IfErr result (λ e. e ≡ fault.OutOfMemory) }
        ensures kept { OnErr result (self.new ≡ self.old) }
    {
        self.objects.reserve(1)?;
        let node = self.dom.create_comment(alloc, text)?;
        self.objects.push_reserved(object);
        Ok(node)
    }
}

// Recalls in proofs what always holds of nodes.
fn recall_sound(dom: &Dom)
    ensures { IsSound dom.now }
{
    let _ = dom.count();
}

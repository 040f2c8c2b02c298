//! Texts that are put at host names.

ghost use Rattle.std.specs.Prelude.{◌≡◌, ◌<◌, false, length, IsTrue, OnErr, OnOk, true};
ghost use Rattle.dom_tree.specs.Name.{folded, is_name};
ghost use Rattle.dom_tree.specs.Node.{is_element, kind_at};
ghost use Rattle.dom_tree.specs.Steps.{sets_attribute, sets_text};
ghost use Rattle.page_host.specs.HostNames.{is_handler, node_has, text_step};
ghost use Rattle.page_host.specs.Steps.{after_host, in_nodes};

use crate::host::PageHost;
use crate::host_name::{HostName, has_text};
use js_core::{OutOfMemory, Units, ascii_text};
use js_values::NodeId;
use std::alloc::Global;

impl PageHost {
    /// The host name, which the node has, takes the text. An element's `textContent` is filled anew instead, by
    /// `remove_children` and a new text, and its `nodeValue` takes none: here nothing changes then. After an error nothing has changed.
    pub fn put_text(
        &mut self,
        alloc: Global,
        node: NodeId,
        name: HostName,
        text: Units,
    ) -> Result<(), OutOfMemory>
        requires there { node.0 < length self.old.nodes }
        requires has { node_has (kind_at self.old.nodes node.0) name ≡ true }
        ensures ok { OnOk result (self.new ≡ after_host self.old
            (in_nodes (text_step node name text))) }
        ensures err { OnErr result (self.new ≡ self.old) }
    {
        match name {
            HostName::Id => self.put_attribute(alloc, node, b"id", &text),
            HostName::ClassName => self.put_attribute(alloc, node, b"class", &text),
            HostName::Value => {
                self.set_value(node, text);
                Ok(())
            }
            _ => {
                self.put_node_text(node, text);
                Ok(())
            }
        }
    }

    // The attribute takes the value.
    fn put_attribute(
        &mut self,
        alloc: Global,
        node: NodeId,
        name: &[u8],
        value: &Units,
    ) -> Result<(), OutOfMemory>
        requires there { node.0 < length self.old.nodes }
        requires element { IsTrue (is_element (kind_at self.old.nodes node.0)) }
        requires named { is_name name.now ≡ true }
        requires plain { is_handler (folded name.now) ≡ false }
        ensures ok { OnOk result (self.new ≡ after_host self.old
            (in_nodes (sets_attribute node name.now value.now))) }
        ensures err { OnErr result (self.new ≡ self.old) }
    {
        let name = ascii_text(alloc, name)?;
        match self.set_attribute(node, &name, value) {
            Ok(()) => Ok(()),
            Err(_) => Err(OutOfMemory),
        }
    }

    // A text or comment takes the text; another node takes none.
    fn put_node_text(&mut self, node: NodeId, text: Units)
        requires { node.0 < length self.old.nodes }
        ensures { self.new ≡ after_host self.old (in_nodes (sets_text node text)) }
    {
        if has_text(&self.dom.content(node).kind) {
            self.dom.set_text(node, text);
        }
    }
}

/// Whether the name begins with `on`.
pub fn is_handler(name: &Units) -> bool
    ensures { result ≡ is_handler name.now }
{
    matches!(name.as_slice(), [0x6f, 0x6e, ..])
}

/// Whether the name begins with `on` in lower case.
pub fn folds_to_handler(name: &Units) -> bool
    ensures { result ≡ is_handler (folded name.now) }
{
    matches!(name.as_slice(), [0x6f | 0x4f, 0x6e | 0x4e, ..])
}

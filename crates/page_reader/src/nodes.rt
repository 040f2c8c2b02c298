//! New nodes at the end of a document.

ghost use Rattle.std.specs.Prelude.{◌≡◌, ◌<◌, ◌+◌, ℕ, length, true, IfOk, OnOk, None};
ghost use Rattle.dom_tree.specs.declared.content.Content.{Content as PureContent};
ghost use Rattle.dom_tree.specs.declared.content.Kind.TheVariants as kind;
ghost use Rattle.dom_tree.specs.Change.{inserted, insertion_error};
ghost use Rattle.dom_tree.specs.Content.{new_content};
ghost use Rattle.dom_tree.specs.Node.{Nodes, document_alone, is_element, kind_at, with_new};
ghost use Rattle.page_reader.specs.Elements.{is_allowed};
ghost use Rattle.page_reader.specs.Forest.{appended, element_content, next_id, with_first};
ghost use Rattle.page_reader.specs.Reading.{KeepsElements};

use dom_tree::{Dom, law_insertion};
use js_core::{OutOfMemory, Units};
use js_values::NodeId;
use page_tokens::Tag;
use std::alloc::Global;

/// Puts the child under the parent, as its last child.
fn append(dom: &mut Dom, parent: NodeId, child: NodeId)
    requires parent { parent.0 < length dom.old }
    requires child { child.0 < length dom.old }
    requires free { insertion_error dom.old parent child None ≡ None }
    ensures ok { dom.new ≡ inserted dom.old parent child None }
    ensures kept { KeepsElements dom.old dom.new }
{
    law_insertion();
    let _count = dom.count();
    let _inserted = dom.insert_before(parent, child, None);
}

/// A text as the last child of an element.
pub fn append_text(
    alloc: Global,
    dom: &mut Dom,
    parent: NodeId,
    text: &Units,
) -> Result<(), OutOfMemory>
    requires { is_element (kind_at dom.old parent.0) ≡ true }
    ensures ok { OnOk result (dom.new ≡ appended dom.old parent (new_content
        (kind.Text text.now))) }
    ensures kept { OnOk result (KeepsElements dom.old dom.new) }
{
    match dom.create_text(alloc, text) {
        Ok(node) => {
            let _count = dom.count();
            append(dom, parent, node);
            Ok(())
        }
        Err(_) => Err(OutOfMemory),
    }
}

/// A comment as the last child of an element.
pub fn append_comment(
    alloc: Global,
    dom: &mut Dom,
    parent: NodeId,
    text: &Units,
) -> Result<(), OutOfMemory>
    requires { is_element (kind_at dom.old parent.0) ≡ true }
    ensures ok { OnOk result (dom.new ≡ appended dom.old parent (new_content
        (kind.Comment text.now))) }
    ensures kept { OnOk result (KeepsElements dom.old dom.new) }
{
    match dom.create_comment(alloc, text) {
        Ok(node) => {
            let _count = dom.count();
            append(dom, parent, node);
            Ok(())
        }
        Err(_) => Err(OutOfMemory),
    }
}

/// An element, alone, with the attributes of its start tag.
fn make_element(alloc: Global, dom: &mut Dom, tag: &Tag) -> Result<NodeId, OutOfMemory>
    requires allowed { is_allowed tag.now ≡ true }
    ensures id { IfOk result (λ node. node.0 ≡ length dom.old) }
    ensures ok { OnOk result (dom.new ≡ with_new dom.old (element_content tag.now)) }
{
    let Ok(node) = dom.create_element(alloc, &tag.name) else {
        return Err(OutOfMemory);
    };
    for (name, value) in tag.attributes.as_slice() {
        set_first(dom, node, name, value)?;
    }
    Ok(node)
}

/// The attribute of the youngest node, where it has none with this name.
fn set_first(dom: &mut Dom, node: NodeId, name: &Units, value: &Units) -> Result<(), OutOfMemory>
    requires youngest { node.0 + 1 ≡ length dom.old }
    requires element { is_element (kind_at dom.old node.0) ≡ true }
    ensures ok { OnOk result ((t : Nodes) (c : PureContent) → dom.old ≡ with_new t c
        → dom.new ≡ with_new t (with_first c (name.now, value.now))) }
    ensures len { OnOk result (length dom.new ≡ length dom.old) }
    ensures kept { OnOk result (is_element (kind_at dom.new node.0) ≡ true) }
{
    if dom.attribute(node, name).is_some() {
        return Ok(());
    }
    match dom.set_attribute(node, name, value) {
        Ok(()) => Ok(()),
        Err(_) => Err(OutOfMemory),
    }
}

/// An element as the last child of an element.
pub fn append_element(
    alloc: Global,
    dom: &mut Dom,
    parent: NodeId,
    tag: &Tag,
) -> Result<NodeId, OutOfMemory>
    requires parent { is_element (kind_at dom.old parent.0) ≡ true }
    requires allowed { is_allowed tag.now ≡ true }
    ensures id { IfOk result (λ node. node ≡ next_id dom.old) }
    ensures ok { OnOk result (dom.new ≡ appended dom.old parent (element_content tag.now)) }
    ensures element { IfOk result (λ node. is_element (kind_at dom.new node.0) ≡ true) }
    ensures kept { OnOk result (KeepsElements dom.old dom.new) }
{
    let node = make_element(alloc, dom, tag)?;
    let _count = dom.count();
    append(dom, parent, node);
    Ok(node)
}

/// An element as the one child of a document.
pub fn append_root(alloc: Global, dom: &mut Dom, tag: &Tag) -> Result<NodeId, OutOfMemory>
    requires alone { dom.old ≡ document_alone }
    requires allowed { is_allowed tag.now ≡ true }
    ensures id { IfOk result (λ node. node ≡ next_id document_alone) }
    ensures ok { OnOk result (dom.new ≡ appended document_alone (record { 0 = 0 })
        (element_content tag.now)) }
    ensures element { IfOk result (λ node. is_element (kind_at dom.new node.0) ≡ true) }
{
    let node = make_element(alloc, dom, tag)?;
    let _count = dom.count();
    append(dom, NodeId(0), node);
    Ok(node)
}

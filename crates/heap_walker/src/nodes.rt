//! The nodes next to a node.

ghost use Rattle.std.specs.Prelude.{◌≡◌, ◌<◌, [], IfOk, OnOk, length};
ghost use Rattle.dom_tree.specs.Node.{children_at, parent_at};

use dom_tree::Dom;
use js_core::OutOfMemory;
use js_values::NodeId;
use std::alloc::Global;

/// The children of the node in order, and none of a node that is not there.
pub fn children(alloc: Global, dom: &Dom, node: NodeId) -> Result<Vec<NodeId>, OutOfMemory>
    ensures { IfOk result (λ nodes. nodes.items ≡ children_at dom.now node.0) }
{
    let mut nodes = Vec::new(alloc);
    if node.0 < dom.count() {
        push_children(dom, node, &mut nodes)?;
    }
    Ok(nodes)
}

fn push_children(dom: &Dom, node: NodeId, nodes: &mut Vec<NodeId>) -> Result<(), OutOfMemory>
    requires there { node.0 < length dom.now }
    requires none { nodes.old.items ≡ [] }
    ensures { OnOk result (nodes.new.items ≡ children_at dom.now node.0) }
{
    let _count = dom.count();
    let mut at = dom.first_child(node);
    while let Some(child) = at {
        nodes.push(child)?;
        at = dom.next(child);
    }
    Ok(())
}

/// The parent of the node, if it has one; none of a node that is not there.
pub fn parent(dom: &Dom, node: NodeId) -> Option<NodeId>
    ensures { result ≡ parent_at dom.now node.0 }
{
    if node.0 < dom.count() {
        return dom.parent(node);
    }
    None
}

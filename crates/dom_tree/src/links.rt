//! The links between nodes.

ghost use Rattle.std.specs.Prelude.{◌≡◌, ◌<◌, length};
ghost use Rattle.std.specs.Option.{ForSome};
ghost use Rattle.dom_tree.specs.Links.{backward, beside, forward, joined, linked_in, linked_out, place_of, with_backward, with_forward, with_link_up};

use crate::content::Content;
use js_values::NodeId;

/// The parent of a node, its first and its last child, and the nodes beside it under its parent.
#[derive(Clone, Copy)]
pub struct Links {
    pub parent: Option<NodeId>,
    pub first: Option<NodeId>,
    pub last: Option<NodeId>,
    pub next: Option<NodeId>,
    pub previous: Option<NodeId>,
}

/// A node with its links. They are made with the node, so that to change them takes no memory.
#[derive(Drop)]
pub struct Linked {
    pub content: Content,
    pub links: Links,
}

impl Links {
    /// Of a node that is alone.
    pub(crate) const NONE: Links = Links {
        parent: None,
        first: None,
        last: None,
        next: None,
        previous: None,
    };
}

/// The link forward among the children of the parent, at its front or beside a child, becomes another.
pub(crate) fn set_forward(
    nodes: &mut [Linked],
    parent: NodeId,
    at: Option<NodeId>,
    to: Option<NodeId>,
)
    requires parent { parent.0 < length nodes.old }
    requires at { ForSome at (λ c. c.0 < length nodes.old) }
    ensures { nodes.new ≡ with_forward nodes.old (place_of parent.0 at) to }
{
    match at {
        Some(child) => nodes[child.0 as usize].links.next = to,
        None => nodes[parent.0 as usize].links.first = to,
    }
}

/// The link backward among the children of the parent, at its end or beside a child, becomes another.
pub(crate) fn set_backward(
    nodes: &mut [Linked],
    parent: NodeId,
    at: Option<NodeId>,
    to: Option<NodeId>,
)
    requires parent { parent.0 < length nodes.old }
    requires at { ForSome at (λ c. c.0 < length nodes.old) }
    ensures { nodes.new ≡ with_backward nodes.old (place_of parent.0 at) to }
{
    match at {
        Some(child) => nodes[child.0 as usize].links.previous = to,
        None => nodes[parent.0 as usize].links.last = to,
    }
}

/// The node gets another parent, or none.
fn set_parent(nodes: &mut [Linked], child: NodeId, to: Option<NodeId>)
    requires { child.0 < length nodes.old }
    ensures { nodes.new ≡ with_link_up nodes.old child.0 to }
{
    nodes[child.0 as usize].links.parent = to;
}

/// Two places among the children of the parent become neighbours.
fn join(nodes: &mut [Linked], parent: NodeId, before: Option<NodeId>, after: Option<NodeId>)
    requires parent { parent.0 < length nodes.old }
    requires before { ForSome before (λ c. c.0 < length nodes.old) }
    requires after { ForSome after (λ c. c.0 < length nodes.old) }
    ensures { nodes.new ≡ joined nodes.old parent.0 before after }
{
    set_forward(nodes, parent, before, after);
    set_backward(nodes, parent, after, before);
}

/// Links the child in under the parent, between two places that are neighbours.
pub(crate) fn link_in(
    nodes: &mut [Linked],
    parent: NodeId,
    before: Option<NodeId>,
    child: NodeId,
    after: Option<NodeId>,
)
    requires parent { parent.0 < length nodes.old }
    requires child { child.0 < length nodes.old }
    requires before { ForSome before (λ c. c.0 < length nodes.old) }
    requires after { ForSome after (λ c. c.0 < length nodes.old) }
    ensures { nodes.new ≡ linked_in nodes.old parent.0 before child after }
{
    join(nodes, parent, before, Some(child));
    join(nodes, parent, Some(child), after);
    set_parent(nodes, child, Some(parent));
}

/// Links the child out from under its parent.
pub(crate) fn link_out(nodes: &mut [Linked], parent: NodeId, child: NodeId)
    requires parent { parent.0 < length nodes.old }
    requires child { child.0 < length nodes.old }
    requires before { ForSome (backward nodes.old (beside child)) (λ c. c.0 < length nodes.old) }
    requires after { ForSome (forward nodes.old (beside child)) (λ c. c.0 < length nodes.old) }
    ensures { nodes.new ≡ linked_out nodes.old parent.0 child }
{
    let links = nodes[child.0 as usize].links;
    join(nodes, parent, links.previous, links.next);
    set_forward(nodes, parent, Some(child), None);
    set_backward(nodes, parent, Some(child), None);
    set_parent(nodes, child, None);
}

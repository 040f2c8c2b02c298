//! The places of objects, environments, nodes and codes.

/// The place of an object in the heap.
#[derive(Clone, Copy, PartialEq, Eq, Hash)]
pub struct ObjId(pub u64);

/// The place of an environment in the heap (ECMA-262 5.1 section 10.2).
#[derive(Clone, Copy, PartialEq, Eq, Hash)]
pub struct EnvId(pub u64);

/// The place of a node in its document's list of nodes.
#[derive(Clone, Copy, PartialEq, Eq, Hash)]
pub struct NodeId(pub u64);

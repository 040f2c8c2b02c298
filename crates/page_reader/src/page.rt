//! A page that was read.

use dom_tree::Dom;
use js_core::Units;

/// A page: its nodes, and its scripts in their order.
#[derive(Drop)]
pub struct Page {
    /// The nodes.
    pub dom: Dom,
    /// The scripts.
    pub scripts: Vec<ScriptText>,
    /// The bytes of a byte order mark, which stands before its text.
    pub start: u64,
}

/// The text of a script and its place in the bytes of the page.
#[derive(Drop)]
pub struct ScriptText {
    /// The text, with its line ends made LF.
    pub text: Units,
    /// Where it stands.
    pub place: Place,
}

/// A place in the bytes of a page.
#[derive(Clone, Copy)]
pub struct Place {
    /// The bytes before its first byte.
    pub start: u64,
    /// The bytes before what follows it.
    pub end: u64,
}

//! What a node is, without its place in a tree.

ghost use Rattle.std.specs.Prelude.{◌≡◌};
ghost use Rattle.dom_tree.specs.Node.{is_document, is_element, is_text, may_have_children};

use crate::attributes::Attributes;
use js_core::Units;

/// What kind of node it is (DOM Level 2 Core, interface Node), with what only nodes of this kind have.
#[derive(Drop)]
pub enum Kind {
    Document,
    /// An element, by its name, which is in lower case.
    Element(Units),
    Text(Units),
    Comment(Units),
}

/// A node without its place in a tree.
#[derive(Drop)]
pub struct Content {
    pub kind: Kind,
    /// The attributes of an element, in order of first setting.
    pub attributes: Attributes,
    /// The value that was set of an `input` or `textarea` element.
    pub value: Option<Units>,
}

impl Kind {
    pub(crate) fn is_document(&self) -> bool
        ensures { result ≡ is_document self.now }
    {
        matches!(self, Kind::Document)
    }

    pub(crate) fn is_element(&self) -> bool
        ensures { result ≡ is_element self.now }
    {
        matches!(self, Kind::Element(_))
    }

    pub(crate) fn is_text(&self) -> bool
        ensures { result ≡ is_text self.now }
    {
        matches!(self, Kind::Text(_))
    }

    /// Whether such a node may have children.
    pub(crate) fn may_have_children(&self) -> bool
        ensures { result ≡ may_have_children self.now }
    {
        self.is_document() || self.is_element()
    }
}

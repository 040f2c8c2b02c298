//! The tokens of a page.

ghost use Rattle.std.specs.Prelude.{◌≡◌, ◌∷◌, ◌++◌, [], IfOk, OnOk, OnErr};

use js_core::{OutOfMemory, Units};
use std::alloc::Global;
use std::marker::Model;

/// A token of a page.
#[derive(Drop)]
pub enum PageToken {
    /// A doctype.
    Doctype,
    /// A comment, by its text.
    Comment(Units),
    /// Text without markup that is written as white space alone.
    Space(Units),
    /// Any other text without markup, its references replaced by what they stand for.
    Text(Units),
    /// A start tag.
    StartTag(Tag),
    /// An end tag, by its name, which is in lower case.
    EndTag(Units),
    /// An element with raw text: its start tag, its text, and its end tag.
    Raw(Tag, RawText),
}

/// A start tag.
#[derive(Drop)]
pub struct Tag {
    /// The name, in lower case.
    pub name: Units,
    /// The attributes, as many as stand there.
    pub attributes: AttributeList,
    /// Whether `/` stands before `>`.
    pub closed: bool,
}

/// Raw text and its place.
#[derive(Drop)]
pub struct RawText {
    /// The text.
    pub text: Units,
    /// The place of its first unit in the page's text.
    pub start: u64,
    /// The place after its last unit in the page's text.
    pub end: u64,
}

/// Attributes in the order of the page: names, which are in lower case, with values, whose references are replaced by what they
/// stand for. A name may stand twice. Contracts see the list of them.
#[derive(Drop)]
pub struct AttributeList {
    items: Vec<(Units, Units)>,
}

impl Model for AttributeList {
    ghost use Rattle.std.specs.Prelude.{List, ℕ};

    ghost Value = { List (List ℕ × List ℕ) };

    ghost view = { λ a. a.items.items };
}

impl AttributeList {
    /// No attributes.
    pub(crate) fn new(alloc: Global) -> AttributeList
        ensures { result ≡ [] }
    {
        AttributeList {
            items: Vec::new(alloc),
        }
    }

    /// One more attribute at the end. After an error nothing has changed.
    pub(crate) fn push(&mut self, name: Units, value: Units) -> Result<(), OutOfMemory>
        ensures ok { OnOk result (self.new ≡ self.old ++ (name, value) ∷ []) }
        ensures err { OnErr result (self.new ≡ self.old) }
    {
        self.items.push((name, value))?;
        Ok(())
    }

    /// The attributes, without memory.
    pub fn as_slice(&self) -> &[(Units, Units)]
        ensures { result.now ≡ self.now }
    {
        self.items.as_slice()
    }
}

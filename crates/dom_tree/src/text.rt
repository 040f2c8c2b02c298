//! The text of nodes.

ghost use Rattle.std.specs.Prelude.{◌≡◌, ◌++◌, ◌<◌, ◌≤◌, length, IfOk, OnOk, OnErr, MatchOption};
ghost use Rattle.std.specs.List.{flat_map};
ghost use Rattle.dom_tree.specs.DomText.{
  attribute_text,
  closing,
  comment_text,
  dom_text,
  end_tag,
  is_void,
  opening,
  start_tag,
  text_content,
  text_unit,
  value_unit,
};
ghost use Rattle.dom_tree.specs.Pieces.{dom_piece, own_piece};
ghost use Rattle.dom_tree.specs.Visits.{visited};

use crate::attributes::Attributes;
use crate::content::Kind;
use crate::dom::Dom;
use crate::walk::Visit;
use js_core::{OutOfMemory, TEXT_LIMIT, Units, push_ascii};
use js_values::NodeId;
use std::alloc::Global;

const VOID_NAMES: &[&[u8]] = &[
    b"area", b"base", b"br", b"col", b"embed", b"hr", b"img", b"input", b"link", b"meta", b"param",
    b"source", b"track", b"wbr",
];

impl Dom {
    /// Appends the text of the node: an element is its tags round the text of its children, with the attributes in order of
    /// first setting, and without an end tag where it is a void element that has no child; a comment is `<!--`, its text
    /// and `-->`; the text of the document is that of its children, joined. In text `&`, `<` and `>` are written as
    /// references, and in values `&`, `<` and `"`. After an error nothing is appended.
    pub fn dom_text(&self, node: NodeId, out: &mut Vec<u16>) -> Result<(), OutOfMemory>
        requires { node.0 < length self.now }
        ensures ok { OnOk result (out.new.items ≡ out.old.items ++ dom_text self.now node) }
        ensures err { OnErr result (out.new.items ≡ out.old.items) }
    {
        let mut text = Vec::new(*out.allocator());
        self.push_dom_text(node, &mut text)?;
        out.extend_from_slice(text.as_slice())?;
        Ok(())
    }

    fn push_dom_text(&self, root: NodeId, out: &mut Vec<u16>) -> Result<(), OutOfMemory>
        requires { root.0 < length self.now }
        ensures ok { OnOk result (out.new.items ≡ out.old.items ++ dom_text self.now root) }
    {
        self.recall_sound();
        let mut at = Some(Visit::Enter(root));
        while let Some(visit) = at {
            self.push_piece(visit, out)?;
            at = self.visit_after(root, visit);
        }
        Ok(())
    }

    // Appends what of the text of the node comes where it is entered, or where it is left.
    fn push_piece(&self, visit: Visit, out: &mut Vec<u16>) -> Result<(), OutOfMemory>
        requires { (visited visit).0 < length self.now }
        ensures { OnOk result (out.new.items ≡ out.old.items ++ dom_piece self.now visit) }
    {
        match visit {
            Visit::Enter(node) => {
                let content = self.content(node);
                push_opening(&content.kind, &content.attributes, out)
            }
            Visit::Leave(node) => {
                let childless = self.first_child(node).is_none();
                push_closing(&self.content(node).kind, childless, out)
            }
        }
    }

    /// The joined text of the text nodes under the node, or `None` exactly where it has more than 1,048,576 units.
    pub fn text_content(&self, alloc: Global, node: NodeId) -> Result<Option<Units>, OutOfMemory>
        requires { node.0 < length self.now }
        ensures { IfOk result (λ text. MatchOption text
            (TEXT_LIMIT < length (text_content self.now node))
            (λ units. (units ≡ text_content self.now node)
            × (length (text_content self.now node) ≤ TEXT_LIMIT))) }
    {
        self.recall_sound();
        let mut units = Vec::new(alloc);
        let mut at = self.visit_after(node, Visit::Enter(node));
        while let Some(visit) = at {
            let text = self.own_text(visit);
            if text.len() > TEXT_LIMIT as usize - units.len() {
                return Ok(None);
            }
            units.extend_from_slice(text)?;
            at = self.visit_after(node, visit);
        }
        Ok(Some(Units::of(alloc, units.as_slice())?))
    }

    // The text of the text node that is entered; else none.
    fn own_text(&self, visit: Visit) -> &[u16]
        requires { (visited visit).0 < length self.now }
        ensures { result.now ≡ own_piece self.now visit }
    {
        match visit {
            Visit::Enter(node) => match &self.content(node).kind {
                Kind::Text(text) => text.as_slice(),
                _ => &[],
            },
            Visit::Leave(_) => &[],
        }
    }
}

fn push_opening(kind: &Kind, attributes: &Attributes, out: &mut Vec<u16>) -> Result<(), OutOfMemory>
    ensures { OnOk result (out.new.items ≡ out.old.items ++ opening kind.now attributes.now) }
{
    match kind {
        Kind::Element(name) => push_start_tag(name, attributes, out),
        Kind::Text(text) => push_text(text.as_slice(), out),
        Kind::Comment(text) => push_comment(text, out),
        Kind::Document => Ok(()),
    }
}

fn push_start_tag(
    name: &Units,
    attributes: &Attributes,
    out: &mut Vec<u16>,
) -> Result<(), OutOfMemory>
    ensures { OnOk result (out.new.items ≡ out.old.items ++ start_tag name.now attributes.now) }
{
    push_ascii(b"<", out)?;
    out.extend_from_slice(name.as_slice())?;
    for (name, value) in attributes.as_slice() {
        push_attribute(name, value, out)?;
    }
    push_ascii(b">", out)
}

fn push_attribute(name: &Units, value: &Units, out: &mut Vec<u16>) -> Result<(), OutOfMemory>
    ensures { OnOk result (out.new.items ≡ out.old.items ++ attribute_text (name.now, value.now)) }
{
    push_ascii(b" ", out)?;
    out.extend_from_slice(name.as_slice())?;
    push_ascii(b"=\"", out)?;
    push_value(value.as_slice(), out)?;
    push_ascii(b"\"", out)
}

fn push_value(units: &[u16], out: &mut Vec<u16>) -> Result<(), OutOfMemory>
    ensures { OnOk result (out.new.items ≡ out.old.items ++ flat_map value_unit units.now) }
{
    for unit in units {
        match *unit {
            0x26 => push_ascii(b"&amp;", out)?,
            0x3c => push_ascii(b"&lt;", out)?,
            0x22 => push_ascii(b"&quot;", out)?,
            other => out.push(other)?,
        }
    }
    Ok(())
}

fn push_text(units: &[u16], out: &mut Vec<u16>) -> Result<(), OutOfMemory>
    ensures { OnOk result (out.new.items ≡ out.old.items ++ flat_map text_unit units.now) }
{
    for unit in units {
        match *unit {
            0x26 => push_ascii(b"&amp;", out)?,
            0x3c => push_ascii(b"&lt;", out)?,
            0x3e => push_ascii(b"&gt;", out)?,
            other => out.push(other)?,
        }
    }
    Ok(())
}

fn push_comment(text: &Units, out: &mut Vec<u16>) -> Result<(), OutOfMemory>
    ensures { OnOk result (out.new.items ≡ out.old.items ++ comment_text text.now) }
{
    push_ascii(b"<!--", out)?;
    out.extend_from_slice(text.as_slice())?;
    push_ascii(b"-->", out)
}

fn push_closing(kind: &Kind, childless: bool, out: &mut Vec<u16>) -> Result<(), OutOfMemory>
    ensures { OnOk result (out.new.items ≡ out.old.items ++ closing kind.now childless) }
{
    match kind {
        Kind::Element(name) if !(childless && is_void(name)) => push_end_tag(name, out),
        _ => Ok(()),
    }
}

fn push_end_tag(name: &Units, out: &mut Vec<u16>) -> Result<(), OutOfMemory>
    ensures { OnOk result (out.new.items ≡ out.old.items ++ end_tag name.now) }
{
    push_ascii(b"</", out)?;
    out.extend_from_slice(name.as_slice())?;
    push_ascii(b">", out)
}

/// Whether an element of this name has no end tag where it has no child.
pub fn is_void(name: &Units) -> bool
    ensures { result ≡ is_void name.now }
{
    name.is_among(VOID_NAMES)
}

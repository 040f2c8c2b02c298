//! The nodes and the scripts of a page.

ghost use Rattle.std.specs.Prelude.{◌≡◌, List, [], ◌∷◌, IfOk, OnOk, MatchOption, bytes_eq, option_copied, reverse, true, false};
ghost use Rattle.std.specs.List.{list_all};
ghost use Rattle.std.specs.Option.{ForSome};
ghost use Rattle.js_core.specs.Memory.{IfCause};
ghost use Rattle.dom_tree.specs.Node.{Nodes, is_element, kind_at};
ghost use Rattle.page_tokens.specs.declared.token.PageToken.{PageToken as PureToken};
ghost use Rattle.page_tokens.specs.declared.token.RawText.{RawText as PureRawText};
ghost use Rattle.page_reader.specs.Elements.{is_allowed as allowed_spec};
ghost use Rattle.page_reader.specs.Forest.{grown};
ghost use Rattle.page_reader.specs.Pages as spec;
ghost use Rattle.page_reader.specs.Pages.{PageOf, part_of};
ghost use Rattle.page_reader.specs.Reading as reading;
ghost use Rattle.page_reader.specs.Reading.{AreOpen, Follows, KeepsElements, Pending, Placed};
ghost use Rattle.page_tokens.specs.Characters.{is_space as space_spec};

use crate::elements::{is_allowed, is_script};
use crate::fault::{NotPage, TreeFault};
use crate::nodes::{append_comment, append_element, append_root, append_text};
use dom_tree::{Dom, is_void};
use js_core::{OutOfMemory, Units};
use js_values::NodeId;
use page_tokens::{PageToken, RawText, Tag};
use std::alloc::Global;
use std::mem::replace;

/// An element whose end tag has not come.
#[derive(Drop)]
pub struct Frame {
    name: Units,
    node: NodeId,
}

/// The nodes of the page that the tokens are, and its scripts in their order. `NotPage` where the tokens are no page. The open
/// elements are kept in a list, so that nesting costs no depth.
pub fn page_of_tokens(alloc: Global, tokens: &[PageToken]) -> Result<(Dom, Vec<RawText>), TreeFault>
    ensures read { IfOk result (λ page. PageOf tokens.now page.0 page.1.items) }
    ensures refused { IfCause result (λ _. (nodes : Nodes) (scripts : List PureRawText)
        → PageOf tokens.now nodes scripts → ⊥) }
{
    let Some((token, rest)) = behind_prolog(tokens).split_first() else {
        return Err(TreeFault::Cause(NotPage));
    };
    let Some(tag) = html_tag(token) else {
        return Err(TreeFault::Cause(NotPage));
    };
    let mut dom = Dom::new(alloc)?;
    let mut scripts = Vec::new(alloc);
    let node = append_root(alloc, &mut dom, tag)?;
    let name = tag.name.clone()?;
    let behind = content(alloc, &mut dom, &mut scripts, Frame { name, node }, rest)?;
    if are_outside(behind) {
        Ok((dom, scripts))
    } else {
        Err(TreeFault::Cause(NotPage))
    }
}

/// The tag, where the token is that of an `html` element that a page may have.
fn html_tag(token: &PageToken) -> Option<&Tag>
    ensures { option_copied result ≡ reading.html_tag token.now }
{
    match token {
        PageToken::StartTag(tag) if tag.name.spells(b"html") && is_allowed(tag) => Some(tag),
        _ => None,
    }
}

/// What stands behind white space, comments and at most one doctype.
fn behind_prolog(tokens: &[PageToken]) -> &[PageToken]
    ensures { result.now ≡ spec.behind_prolog false tokens.now }
{
    let mut rest = tokens;
    let mut seen = false;
    while let Some((token, behind)) = rest.split_first() {
        let Some(after) = after_token(seen, token) else {
            return rest;
        };
        seen = after;
        rest = behind;
    }
    rest
}

/// Whether a doctype has come, behind a token of the prolog.
fn after_token(seen: bool, token: &PageToken) -> Option<bool>
    ensures { result ≡ reading.after_token seen token.now }
{
    match token {
        PageToken::Space(_) | PageToken::Comment(_) => Some(seen),
        PageToken::Doctype if !seen => Some(true),
        _ => None,
    }
}

fn are_outside(tokens: &[PageToken]) -> bool
    ensures { result ≡ list_all spec.is_outside tokens.now }
{
    tokens.iter().all(|token| is_outside(token))
}

fn is_outside(token: &PageToken) -> bool
    ensures { result ≡ spec.is_outside token.now }
{
    matches!(token, PageToken::Space(_) | PageToken::Comment(_))
}

/// Reads the content of the `html` element and its end tag, and answers what stands behind it.
fn content<'a>(
    alloc: Global,
    dom: &mut Dom,
    scripts: &mut Vec<RawText>,
    html: Frame,
    tokens: &'a [PageToken],
) -> Result<&'a [PageToken], TreeFault>
    requires { is_element (kind_at dom.old html.node.0) ≡ true }
    ensures read { IfOk result (λ rest. Follows
        (html ∷ []) tokens.now dom.old scripts.old.items [] rest.now dom.new scripts.new.items) }
    ensures refused { IfCause result (λ _. (nodes : Nodes) (all : List PureRawText)
        → Pending (html ∷ []) tokens.now dom.old scripts.old.items nodes all → ⊥) }
{
    let mut top = html;
    let mut below = Vec::new(alloc);
    let mut rest = tokens;
    while let Some((token, behind)) = rest.split_first() {
        if step(alloc, dom, scripts, &mut top, &mut below, token)? {
            return Ok(behind);
        }
        rest = behind;
    }
    Err(TreeFault::Cause(NotPage))
}

/// Reads a token in the open elements, and answers whether it ended the last of them.
fn step(
    alloc: Global,
    dom: &mut Dom,
    scripts: &mut Vec<RawText>,
    top: &mut Frame,
    below: &mut Vec<Frame>,
    token: &PageToken,
) -> Result<bool, TreeFault>
    requires { AreOpen dom.old (top.old ∷ reverse below.old.items) }
    ensures read { IfOk result (λ ended. (ts : List PureToken)
        → Follows (top.old ∷ reverse below.old.items) (token.now ∷ ts) dom.old scripts.old.items
        (reading.left ended top.new below.new.items) ts dom.new scripts.new.items) }
    ensures open { IfOk result (λ ended. AreOpen dom.new
        (reading.left ended top.new below.new.items)) }
    ensures refused { IfCause result (λ _. (ts : List PureToken) (nodes : Nodes)
        (all : List PureRawText)
        → Pending (top.old ∷ reverse below.old.items)
        (token.now ∷ ts) dom.old scripts.old.items nodes all → ⊥) }
{
    if let PageToken::EndTag(name) = token {
        return match close(top, below, name) {
            Some(ended) => Ok(ended),
            None => Err(TreeFault::Cause(NotPage)),
        };
    }
    let opened = place(alloc, dom, scripts, top, token)?;
    open(top, below, opened)?;
    Ok(false)
}

/// Ends the innermost open element, whose name this is to be, and answers whether it was the last.
fn close(top: &mut Frame, below: &mut Vec<Frame>, name: &Units) -> Option<bool>
    ensures { MatchOption result (name.now ≡ top.old.name → ⊥)
        (λ ended. (name.now ≡ top.old.name) × (reading.left ended top.new below.new.items
        ≡ reverse below.old.items)) }
{
    if !is_same(name, &top.name) {
        return None;
    }
    match below.pop() {
        Some(frame) => {
            *top = frame;
            Some(false)
        }
        None => Some(true),
    }
}

fn is_same(name: &Units, other: &Units) -> bool
    ensures { result ≡ bytes_eq name.now other.now }
{
    name == other
}

/// Puts an element that was opened on top of the open ones.
fn open(top: &mut Frame, below: &mut Vec<Frame>, opened: Option<Frame>) -> Result<(), OutOfMemory>
    ensures { OnOk result (top.new ∷ reverse below.new.items
        ≡ reading.opened_on opened (top.old ∷ reverse below.old.items)) }
{
    if let Some(frame) = opened {
        below.push(replace(top, frame))?;
    }
    Ok(())
}

/// Makes what the token is in the content of the element, and answers the element that it opens, if any.
#[tactic(auto, unfolding(crate::specs::Pages::part_of))]
fn place(
    alloc: Global,
    dom: &mut Dom,
    scripts: &mut Vec<RawText>,
    parent: &Frame,
    token: &PageToken,
) -> Result<Option<Frame>, TreeFault>
    requires { is_element (kind_at dom.old parent.now.node.0) ≡ true }
    ensures placed { IfOk result (λ frame. Placed
        (part_of parent.now.name token.now) parent.now.node dom.old scripts.old.items dom.new
        scripts.new.items frame) }
    ensures open { IfOk result (λ frame. ForSome frame
        (λ f. is_element (kind_at dom.new f.node.0) ≡ true)) }
    ensures kept { OnOk result (KeepsElements dom.old dom.new) }
    ensures refused { IfCause result
        (λ _. part_of parent.now.name token.now ≡ spec.Part.misplaced) }
{
    match token {
        PageToken::Space(text) | PageToken::Text(text) => {
            place_text(alloc, dom, parent, text)?;
            Ok(None)
        }
        PageToken::Comment(text) => {
            append_comment(alloc, dom, parent.node, text)?;
            Ok(None)
        }
        PageToken::StartTag(tag) if is_allowed(tag) => Ok(place_start(alloc, dom, parent, tag)?),
        PageToken::Raw(tag, raw) if is_allowed(tag) => {
            place_raw(alloc, dom, scripts, parent, tag, raw)?;
            Ok(None)
        }
        _ => Err(TreeFault::Cause(NotPage)),
    }
}

/// A text, which white space directly in `html` does not become.
fn place_text(alloc: Global, dom: &mut Dom, parent: &Frame, text: &Units) -> Result<(), OutOfMemory>
    requires { is_element (kind_at dom.old parent.now.node.0) ≡ true }
    ensures placed { OnOk result ((sc : List PureRawText)
        → Placed (spec.text_part parent.now.name text.now) parent.now.node dom.old sc dom.new sc
        None) }
    ensures kept { OnOk result (KeepsElements dom.old dom.new) }
{
    if parent.name.spells(b"html") && is_blank(text.as_slice()) {
        return Ok(());
    }
    append_text(alloc, dom, parent.node, text)
}

/// Whether the text is white space alone.
fn is_blank(text: &[u16]) -> bool
    ensures { result ≡ list_all space_spec text.now }
{
    text.iter().all(|unit| is_space(*unit))
}

fn is_space(unit: u16) -> bool
    ensures { result ≡ space_spec unit }
{
    unit == 0x09 || unit == 0x0a || unit == 0x0c || unit == 0x20
}

/// An element, which stays open where it is not void.
fn place_start(
    alloc: Global,
    dom: &mut Dom,
    parent: &Frame,
    tag: &Tag,
) -> Result<Option<Frame>, OutOfMemory>
    requires parent { is_element (kind_at dom.old parent.now.node.0) ≡ true }
    requires allowed { allowed_spec tag.now ≡ true }
    ensures placed { IfOk result (λ frame. (sc : List PureRawText)
        → Placed (spec.start_part tag.now) parent.now.node dom.old sc dom.new sc frame) }
    ensures open { IfOk result (λ frame. ForSome frame
        (λ f. is_element (kind_at dom.new f.node.0) ≡ true)) }
    ensures kept { OnOk result (KeepsElements dom.old dom.new) }
{
    let node = append_element(alloc, dom, parent.node, tag)?;
    if is_void(&tag.name) {
        return Ok(None);
    }
    let name = tag.name.clone()?;
    Ok(Some(Frame { name, node }))
}

/// An element with raw text, which is a script's text or a text in it.
fn place_raw(
    alloc: Global,
    dom: &mut Dom,
    scripts: &mut Vec<RawText>,
    parent: &Frame,
    tag: &Tag,
    raw: &RawText,
) -> Result<(), OutOfMemory>
    requires parent { is_element (kind_at dom.old parent.now.node.0) ≡ true }
    requires allowed { allowed_spec tag.now ≡ true }
    ensures placed { OnOk result (Placed (spec.raw_part tag.now raw.now) parent.now.node dom.old
        scripts.old.items dom.new scripts.new.items None) }
    ensures kept { OnOk result (KeepsElements dom.old dom.new) }
{
    let node = append_element(alloc, dom, parent.node, tag)?;
    if is_script(&tag.name) {
        scripts.push(copied(raw)?)?;
        return Ok(());
    }
    place_style(alloc, dom, node, &raw.text)
}

/// A text that is not empty.
fn place_style(alloc: Global, dom: &mut Dom, node: NodeId, text: &Units) -> Result<(), OutOfMemory>
    requires { is_element (kind_at dom.old node.0) ≡ true }
    ensures ok { OnOk result (dom.new ≡ grown (spec.text_alone text.now) node dom.old) }
    ensures kept { OnOk result (KeepsElements dom.old dom.new) }
{
    if text.as_slice().is_empty() {
        return Ok(());
    }
    append_text(alloc, dom, node, text)
}

/// The same raw text, which shares the units.
fn copied(raw: &RawText) -> Result<RawText, OutOfMemory>
    ensures { IfOk result (λ copy. copy ≡ raw.now) }
{
    Ok(RawText {
        text: raw.text.clone()?,
        start: raw.start,
        end: raw.end,
    })
}

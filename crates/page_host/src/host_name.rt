//! The names that nodes and events answer themselves.

ghost use Rattle.std.specs.Prelude.{◌≡◌, bytes_eq, if◌then◌else◌};
ghost use Rattle.dom_tree.specs.Content.{has_text};
ghost use Rattle.dom_tree.specs.Node.{is_document, is_element};
ghost use Rattle.dom_tree.specs.Sound.{takes_value};
ghost use Rattle.page_host.specs.HostNames.{event_has, host_name, host_names, is_put, name_among, node_has, of_length};

use dom_tree::Kind;
use js_core::Units;

/// A host name (DOM Level 2 Core and Events; `textContent`, `id`, `className`, `value` and `body` are our own).
#[derive(Clone, Copy)]
pub enum HostName {
    NodeType,
    NodeName,
    NodeValue,
    ParentNode,
    FirstChild,
    LastChild,
    PreviousSibling,
    NextSibling,
    OwnerDocument,
    TextContent,
    TagName,
    Id,
    ClassName,
    Value,
    Data,
    DocumentElement,
    Body,
    EventType,
    Target,
    CurrentTarget,
    EventPhase,
    Bubbles,
    Cancelable,
    TimeStamp,
}

impl HostName {
    /// The host name that a text is, or `None` exactly where it is none. Its length tells which few it may be.
    pub fn of(text: &Units) -> Option<HostName>
        ensures { result ≡ host_name text.now }
    {
        match text.as_slice().len() {
            2 => pick(text, b"id", HostName::Id, None),
            4 => of_four(text),
            5 => pick(text, b"value", HostName::Value, None),
            6 => pick(text, b"target", HostName::Target, None),
            7 => of_seven(text),
            8 => of_eight(text),
            9 => of_nine(text),
            10 => of_ten(text),
            11 => of_eleven(text),
            13 => of_thirteen(text),
            15 => of_fifteen(text),
            _ => None,
        }
    }

    /// Whether a node of the kind has it.
    pub fn is_of_node(self, kind: &Kind) -> bool
        ensures { result ≡ node_has kind.now self }
    {
        match self {
            HostName::NodeType
            | HostName::NodeName
            | HostName::NodeValue
            | HostName::ParentNode
            | HostName::FirstChild
            | HostName::LastChild
            | HostName::PreviousSibling
            | HostName::NextSibling
            | HostName::OwnerDocument
            | HostName::TextContent => true,
            HostName::TagName | HostName::Id | HostName::ClassName => is_element(kind),
            HostName::Value => takes_value(kind),
            HostName::Data => has_text(kind),
            HostName::DocumentElement | HostName::Body => is_document(kind),
            _ => false,
        }
    }

    /// Whether an event has it.
    pub fn is_of_event(self) -> bool
        ensures { result ≡ event_has self }
    {
        matches!(
            self,
            HostName::EventType
                | HostName::Target
                | HostName::CurrentTarget
                | HostName::EventPhase
                | HostName::Bubbles
                | HostName::Cancelable
                | HostName::TimeStamp
        )
    }

    /// Whether a text may be put there, where a node has it.
    pub fn is_put(self) -> bool
        ensures { result ≡ is_put self }
    {
        matches!(
            self,
            HostName::NodeValue
                | HostName::TextContent
                | HostName::Id
                | HostName::ClassName
                | HostName::Value
                | HostName::Data
        )
    }
}

// The host name where the text spells it, and else the other one.
fn pick(text: &Units, spelling: &[u8], name: HostName, other: Option<HostName>) -> Option<HostName>
    ensures { result ≡ (if bytes_eq text.now spelling.now then Some name else other) }
{
    if text.spells(spelling) {
        Some(name)
    } else {
        other
    }
}

// The host names of four units, and of as many as the other functions say.
fn of_four(text: &Units) -> Option<HostName>
    ensures { result ≡ name_among (of_length 4 host_names) text.now }
{
    let kind = pick(text, b"type", HostName::EventType, None);
    let body = pick(text, b"body", HostName::Body, kind);
    pick(text, b"data", HostName::Data, body)
}

fn of_seven(text: &Units) -> Option<HostName>
    ensures { result ≡ name_among (of_length 7 host_names) text.now }
{
    let bubbles = pick(text, b"bubbles", HostName::Bubbles, None);
    pick(text, b"tagName", HostName::TagName, bubbles)
}

fn of_eight(text: &Units) -> Option<HostName>
    ensures { result ≡ name_among (of_length 8 host_names) text.now }
{
    let name = pick(text, b"nodeName", HostName::NodeName, None);
    pick(text, b"nodeType", HostName::NodeType, name)
}

fn of_nine(text: &Units) -> Option<HostName>
    ensures { result ≡ name_among (of_length 9 host_names) text.now }
{
    let stamp = pick(text, b"timeStamp", HostName::TimeStamp, None);
    let class = pick(text, b"className", HostName::ClassName, stamp);
    let last = pick(text, b"lastChild", HostName::LastChild, class);
    pick(text, b"nodeValue", HostName::NodeValue, last)
}

fn of_ten(text: &Units) -> Option<HostName>
    ensures { result ≡ name_among (of_length 10 host_names) text.now }
{
    let cancelable = pick(text, b"cancelable", HostName::Cancelable, None);
    let phase = pick(text, b"eventPhase", HostName::EventPhase, cancelable);
    let first = pick(text, b"firstChild", HostName::FirstChild, phase);
    pick(text, b"parentNode", HostName::ParentNode, first)
}

fn of_eleven(text: &Units) -> Option<HostName>
    ensures { result ≡ name_among (of_length 11 host_names) text.now }
{
    let content = pick(text, b"textContent", HostName::TextContent, None);
    pick(text, b"nextSibling", HostName::NextSibling, content)
}

fn of_thirteen(text: &Units) -> Option<HostName>
    ensures { result ≡ name_among (of_length 13 host_names) text.now }
{
    let target = pick(text, b"currentTarget", HostName::CurrentTarget, None);
    pick(text, b"ownerDocument", HostName::OwnerDocument, target)
}

fn of_fifteen(text: &Units) -> Option<HostName>
    ensures { result ≡ name_among (of_length 15 host_names) text.now }
{
    let element = pick(text, b"documentElement", HostName::DocumentElement, None);
    pick(text, b"previousSibling", HostName::PreviousSibling, element)
}

fn is_element(kind: &Kind) -> bool
    ensures { result ≡ is_element kind.now }
{
    matches!(kind, Kind::Element(_))
}

fn is_document(kind: &Kind) -> bool
    ensures { result ≡ is_document kind.now }
{
    matches!(kind, Kind::Document)
}

pub(crate) fn has_text(kind: &Kind) -> bool
    ensures { result ≡ has_text kind.now }
{
    matches!(kind, Kind::Text(_) | Kind::Comment(_))
}

fn takes_value(kind: &Kind) -> bool
    ensures { result ≡ takes_value kind.now }
{
    match kind {
        Kind::Element(name) => name.spells(b"input") || name.spells(b"textarea"),
        _ => false,
    }
}

//! What nodes answer at host names.

ghost use Rattle.std.specs.Char.{to_ascii_uppercase};
ghost use Rattle.std.specs.Prelude.{◌≡◌, ◌<◌, [], codes, length, option_copied, pos, unwrap_or, IfOk, Some};
ghost use Rattle.dom_tree.specs.Node.{kind_at, node_at};
ghost use Rattle.dom_tree.specs.Sound.{document_element};
ghost use Rattle.page_host.specs.HostNames.{attribute_at, body_in, content_text, has_at_node, node_name, node_reads, node_value, owner, reads_at, text_or_long, text_or_null, upper, value_at};
ghost use Rattle.dom_tree.specs.Content.{is_named, type_of};
ghost use Rattle.dom_tree.specs.DomText.{text_content};

use crate::host::{PageHost, object_at};
use crate::host_name::HostName;
use dom_tree::{Dom, Kind};
use js_core::{OutOfMemory, Units, Whole, ascii_text};
use js_values::{NodeId, ObjId, Throw, Value};
use std::alloc::Global;

impl PageHost {
    /// Whether the node is there and has the host name.
    pub fn has_name(&self, node: NodeId, name: HostName) -> bool
        ensures { result ≡ has_at_node self.now.nodes node name }
    {
        has_at_node(&self.dom, node, name)
    }

    /// What the node answers at the host name: a value, or `TextTooLong` exactly where a text that was joined would be too long.
    pub fn read(
        &self,
        alloc: Global,
        node: NodeId,
        name: HostName,
    ) -> Result<Result<Value, Throw>, OutOfMemory>
        requires { node.0 < length self.now.nodes }
        ensures { IfOk result (λ read. read ≡ node_reads self.now node name) }
    {
        read_at(&self.dom, self.objects.as_slice(), alloc, node, name)
    }
}

fn has_at_node(dom: &Dom, node: NodeId, name: HostName) -> bool
    ensures { result ≡ has_at_node dom.now node name }
{
    node.0 < dom.count() && name.is_of_node(&dom.content(node).kind)
}

fn read_at(
    dom: &Dom,
    objects: &[ObjId],
    alloc: Global,
    node: NodeId,
    name: HostName,
) -> Result<Result<Value, Throw>, OutOfMemory>
    requires there { node.0 < length dom.now }
    requires objects { length objects.now ≡ length dom.now }
    ensures { IfOk result (λ read. read ≡ reads_at dom.now objects.now node name) }
{
    match name {
        HostName::ParentNode => Ok(Ok(node_value(objects, dom.parent(node)))),
        HostName::FirstChild => Ok(Ok(node_value(objects, dom.first_child(node)))),
        HostName::LastChild => Ok(Ok(node_value(objects, dom.last_child(node)))),
        HostName::PreviousSibling => Ok(Ok(node_value(objects, dom.previous(node)))),
        HostName::NextSibling => Ok(Ok(node_value(objects, dom.next(node)))),
        HostName::OwnerDocument => Ok(Ok(owner(objects, &dom.content(node).kind))),
        HostName::DocumentElement => Ok(Ok(node_value(objects, dom.document_element()))),
        HostName::Body => Ok(Ok(node_value(objects, body(dom)))),
        HostName::TextContent => content_text(dom, alloc, node),
        HostName::Value => value_text(dom, alloc, node),
        HostName::NodeType => Ok(Ok(Value::Num(node_type(dom, node)))),
        HostName::NodeName | HostName::TagName => {
            Ok(Ok(Value::Text(node_name(alloc, &dom.content(node).kind)?)))
        }
        HostName::NodeValue | HostName::Data => Ok(Ok(text_or_null(dom.text(node))?)),
        HostName::Id => Ok(Ok(Value::Text(attribute_text(dom, alloc, node, b"id")?))),
        HostName::ClassName => Ok(Ok(Value::Text(attribute_text(dom, alloc, node, b"class")?))),
        _ => Ok(Ok(Value::Undefined)),
    }
}

// The object of the node, or null where there is none.
fn node_value(objects: &[ObjId], node: Option<NodeId>) -> Value
    ensures { result ≡ node_value objects.now node }
{
    match node {
        Some(node) => Value::Object(object_at(objects, node)),
        None => Value::Null,
    }
}

// The document's object; the document itself has none.
fn owner(objects: &[ObjId], kind: &Kind) -> Value
    ensures { result ≡ owner objects.now kind.now }
{
    match kind {
        Kind::Document => Value::Null,
        _ => Value::Object(object_at(objects, NodeId(0))),
    }
}

// The first `body` in the document's element.
fn body(dom: &Dom) -> Option<NodeId>
    ensures { result ≡ body_in dom.now (document_element dom.now) }
{
    match dom.document_element() {
        Some(element) => dom.child_named(element, b"body"),
        None => None,
    }
}

// The number of the node's kind.
fn node_type(dom: &Dom, node: NodeId) -> Whole
    requires { node.0 < length dom.now }
    ensures { result ≡ Some (pos (type_of (kind_at dom.now node.0))) }
{
    Whole::new(i64::from(dom.node_type(node))).unwrap()
}

fn text_or_null(text: Option<&Units>) -> Result<Value, OutOfMemory>
    ensures { IfOk result (λ value. value ≡ text_or_null (option_copied text.entry)) }
{
    match text {
        Some(text) => Ok(Value::Text(text.clone()?)),
        None => Ok(Value::Null),
    }
}

fn node_name(alloc: Global, kind: &Kind) -> Result<Units, OutOfMemory>
    ensures { IfOk result (λ name. name ≡ node_name kind.now) }
{
    match kind {
        Kind::Element(name) => upper(alloc, name),
        Kind::Text(_) => ascii_text(alloc, b"#text"),
        Kind::Comment(_) => ascii_text(alloc, b"#comment"),
        Kind::Document => ascii_text(alloc, b"#document"),
    }
}

// The name with its ASCII letters in upper case.
fn upper(alloc: Global, name: &Units) -> Result<Units, OutOfMemory>
    ensures { IfOk result (λ text. text ≡ upper name.now) }
{
    let mut units = Vec::new(alloc);
    for unit in name.as_slice() {
        units.push(upper_unit(*unit))?;
    }
    Units::of(alloc, units.as_slice())
}

fn upper_unit(unit: u16) -> u16
    ensures { result ≡ to_ascii_uppercase unit }
{
    if matches!(unit, 0x61..=0x7a) {
        unit - 0x20
    } else {
        unit
    }
}

// The attribute, or the empty text where there is none.
fn attribute_text(dom: &Dom, alloc: Global, node: NodeId, name: &[u8]) -> Result<Units, OutOfMemory>
    requires { node.0 < length dom.now }
    ensures { IfOk result (λ text. text ≡ unwrap_or (attribute_at dom.now node name.now) []) }
{
    match dom.content(node).attributes.find(name) {
        Some(value) => value.clone(),
        None => Units::of(alloc, &[]),
    }
}

// The text of a node, which is joined for an element.
fn content_text(dom: &Dom, alloc: Global, node: NodeId) -> Result<Result<Value, Throw>, OutOfMemory>
    requires { node.0 < length dom.now }
    ensures { IfOk result (λ read. read ≡ content_text dom.now node (kind_at dom.now node.0)) }
{
    match &dom.content(node).kind {
        Kind::Document => Ok(Ok(Value::Null)),
        Kind::Element(_) => joined_text(dom, alloc, node),
        Kind::Text(text) => Ok(Ok(Value::Text(text.clone()?))),
        Kind::Comment(text) => Ok(Ok(Value::Text(text.clone()?))),
    }
}

// The joined text of the text nodes under a node.
fn joined_text(dom: &Dom, alloc: Global, node: NodeId) -> Result<Result<Value, Throw>, OutOfMemory>
    requires { node.0 < length dom.now }
    ensures { IfOk result (λ read. read ≡ text_or_long (text_content dom.now node)) }
{
    match dom.text_content(alloc, node)? {
        Some(text) => Ok(Ok(Value::Text(text))),
        None => Ok(Err(Throw::TextTooLong)),
    }
}

// What was set last of an `input` or `textarea`, or else the attribute of an input, or the text of a textarea.
fn value_text(dom: &Dom, alloc: Global, node: NodeId) -> Result<Result<Value, Throw>, OutOfMemory>
    requires { node.0 < length dom.now }
    ensures { IfOk result (λ read. read ≡ value_at dom.now node
        (node_at dom.now node.0).content.value (kind_at dom.now node.0)) }
{
    if let Some(value) = dom.set_value_of(node) {
        return Ok(Ok(Value::Text(value.clone()?)));
    }
    if is_input(&dom.content(node).kind) {
        return Ok(Ok(Value::Text(attribute_text(dom, alloc, node, b"value")?)));
    }
    joined_text(dom, alloc, node)
}

fn is_input(kind: &Kind) -> bool
    ensures { result ≡ is_named (codes "input") kind.now }
{
    match kind {
        Kind::Element(name) => name.spells(b"input"),
        _ => false,
    }
}

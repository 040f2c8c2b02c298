//! Calls on the nodes of a document, as a table has them, and how they end.

ghost use Rattle.std.specs.Prelude.{IsTrue, ◌<◌, length};
ghost use Rattle.std.specs.Option.{ForSome};

use crate::pages::{push_document, push_line, units_of};
use dom_tree::{Dom, DomError, DomFault, Kind};
use js_core::Units;
use js_values::NodeId;
use std::alloc::{AllocError, Global};

/// How each step ends and, after a bar, the text of the document then. `e`, `t` and `c` make an element, a text and a comment, which
/// are numbered from 1; `put P C R` inserts C under P before R, or at the end where R is `-`; `swap P C O` replaces O by C; `cut P C`
/// removes C, and `empty N` all children; `set N A V` and `unset N A` are for attributes; `find I` tells the element of an id, `text N`
/// the text of a node, `child N A` its first child of that name, and `line N` the nodes above it.
pub fn endings(alloc: Global, steps: &str) -> Result<Vec<u8>, AllocError> {
    let Ok(mut dom) = Dom::new(alloc) else {
        return Err(AllocError);
    };
    let mut out = Vec::new(alloc);
    for line in steps.split("; ") {
        push_step(alloc, &mut dom, line, &mut out)?;
        out.push(b' ')?;
    }
    out.extend_from_slice(b"| ")?;
    push_document(alloc, &dom, &mut out)?;
    Ok(out)
}

fn push_step(
    alloc: Global,
    dom: &mut Dom,
    line: &str,
    out: &mut Vec<u8>,
) -> Result<(), AllocError> {
    let (verb, rest) = line.split_once(' ').unwrap_or((line, ""));
    match verb {
        "find" => push_node(alloc, dom.find_id(&units_of(alloc, rest)?), out),
        "text" => push_text(alloc, dom, rest, out),
        "child" => push_child(alloc, dom, rest, out),
        "line" => push_above(alloc, dom, rest, out),
        "e" | "t" | "c" => out.extend_from_slice(make(alloc, dom, verb, rest)?.as_bytes()),
        _ => out.extend_from_slice(change(alloc, dom, verb, rest)?.as_bytes()),
    }
}

fn number(word: &str) -> Option<NodeId> {
    match word.parse::<u64>() {
        Ok(number) => Some(NodeId(number)),
        Err(_) => None,
    }
}

fn end(answer: Result<(), DomError>) -> &'static str {
    match answer {
        Ok(()) => "ok",
        Err(DomError::Hierarchy) => "hierarchy",
        Err(DomError::NotFound) => "missing",
        Err(DomError::BadName) => "name",
    }
}

fn made<T: Drop>(answer: Result<T, DomFault>) -> &'static str {
    match answer {
        Ok(_) => "ok",
        Err(DomFault::Cause(error)) => end(Err(error)),
        Err(DomFault::OutOfMemory) => "memory",
    }
}

fn make(alloc: Global, dom: &mut Dom, verb: &str, word: &str) -> Result<&'static str, AllocError> {
    let text = units_of(alloc, word)?;
    Ok(match verb {
        "e" => made(dom.create_element(alloc, &text)),
        "t" => made(dom.create_text(alloc, &text)),
        _ => made(dom.create_comment(alloc, &text)),
    })
}

// An attribute is set or taken away, or a node is put in or taken out.
fn change(
    alloc: Global,
    dom: &mut Dom,
    verb: &str,
    words: &str,
) -> Result<&'static str, AllocError> {
    let (first, more) = words.split_once(' ').unwrap_or((words, ""));
    let (second, third) = more.split_once(' ').unwrap_or((more, ""));
    let node = number(first).unwrap_or(NodeId(0));
    let other = number(second).unwrap_or(NodeId(0));
    let name = units_of(alloc, second)?;
    let value = units_of(alloc, third)?;
    Ok(match verb {
        "set" => set(dom, node, &name, Some(&value)),
        "unset" => set(dom, node, &name, None),
        _ => place(dom, verb, node, other, number(third)),
    })
}

fn set(dom: &mut Dom, node: NodeId, name: &Units, value: Option<&Units>) -> &'static str {
    if node.0 >= dom.count() || !matches!(&dom.content(node).kind, Kind::Element(_)) {
        return "none";
    }
    match value {
        Some(value) => made(dom.set_attribute(node, name, value)),
        None => {
            dom.remove_attribute(node, name);
            "ok"
        }
    }
}

// Whether the node is one, if there is one.
fn is_there(dom: &Dom, node: Option<NodeId>) -> bool
    ensures { IsTrue result → ForSome node (λ n. n.0 < length dom.now) }
{
    match node {
        Some(node) => node.0 < dom.count(),
        None => true,
    }
}

fn place(
    dom: &mut Dom,
    verb: &str,
    parent: NodeId,
    child: NodeId,
    before: Option<NodeId>,
) -> &'static str {
    if !is_there(dom, before) || parent.0 >= dom.count() || child.0 >= dom.count() {
        return "none";
    }
    match (verb, before) {
        ("put", _) => end(dom.insert_before(parent, child, before)),
        ("swap", Some(old)) => end(dom.replace_child(parent, child, old)),
        ("empty", _) => {
            dom.remove_children(parent);
            "ok"
        }
        _ => end(dom.remove_child(parent, child)),
    }
}

fn push_child(alloc: Global, dom: &Dom, words: &str, out: &mut Vec<u8>) -> Result<(), AllocError> {
    let (node, name) = words.split_once(' ').unwrap_or((words, ""));
    let node = number(node).unwrap_or(NodeId(0));
    if node.0 >= dom.count() {
        return out.extend_from_slice(b"none");
    }
    push_node(alloc, dom.child_named(node, name.as_bytes()), out)
}

// The nodes above, with commas between them.
fn push_above(alloc: Global, dom: &Dom, node: &str, out: &mut Vec<u8>) -> Result<(), AllocError> {
    let node = number(node).unwrap_or(NodeId(0));
    if node.0 >= dom.count() {
        return out.extend_from_slice(b"none");
    }
    let Ok(nodes) = dom.above(alloc, node) else {
        return Err(AllocError);
    };
    for node in &nodes {
        push_node(alloc, Some(*node), out)?;
        out.push(b',')?;
    }
    out.push(b'.')?;
    Ok(())
}

fn push_node(alloc: Global, node: Option<NodeId>, out: &mut Vec<u8>) -> Result<(), AllocError> {
    match node {
        Some(node) => {
            let place = node.0;
            out.extend_from_slice(format!(in alloc; "{place}")?.as_bytes())
        }
        None => out.extend_from_slice(b"none"),
    }
}

fn push_text(alloc: Global, dom: &Dom, node: &str, out: &mut Vec<u8>) -> Result<(), AllocError> {
    let node = number(node).unwrap_or(NodeId(0));
    if node.0 >= dom.count() {
        return out.extend_from_slice(b"none");
    }
    match dom.text_content(alloc, node) {
        Ok(Some(text)) => push_line(alloc, text.as_slice(), out),
        Ok(None) => out.extend_from_slice(b"long"),
        Err(_) => Err(AllocError),
    }
}

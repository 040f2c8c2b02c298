//! The lexemes of the statements of nodes, listeners and events.

ghost use Rattle.std.specs.Prelude.{◌≡◌, ◌++◌, OnOk};
ghost use Rattle.js_core.specs.Tree as tree;
ghost use Rattle.js_print.specs.Lexemes.{expr_lexemes};
ghost use Rattle.page_writer.specs.HostStatements as spec;
ghost use Rattle.page_writer.specs.References.{reference};

use crate::references::{push_document_member, push_member, push_part, push_string};
use crate::values::push_boolean;
use js_core::{OutOfMemory, Punct, Units};
use js_print::{Lexeme, push_punct, push_text};
use js_values::ObjId;
use std::alloc::Global;

/// Appends a call of a function of the document that makes a node with this name or text.
pub fn push_created(
    alloc: Global,
    word: &[u8],
    text: &Units,
    out: &mut Vec<Lexeme>,
) -> Result<(), OutOfMemory>
    ensures { OnOk result (out.new.items ≡ out.old.items ++ expr_lexemes
        (spec.document_method word.now (spec.one (tree.text text.now)))) }
{
    push_document_member(alloc, word, out)?;
    push_punct(Punct::LeftParenthesis, out)?;
    push_text(text, out)?;
    push_punct(Punct::RightParenthesis, out)
}

/// Appends what makes an event.
pub fn push_new_event(alloc: Global, out: &mut Vec<Lexeme>) -> Result<(), OutOfMemory>
    ensures { OnOk result (out.new.items ≡ out.old.items ++ expr_lexemes spec.event_expr) }
{
    push_document_member(alloc, b"createEvent", out)?;
    push_punct(Punct::LeftParenthesis, out)?;
    push_string(alloc, b"Event", out)?;
    push_punct(Punct::RightParenthesis, out)
}

/// Appends a call of a method of an object with another object.
pub fn push_call_with(
    alloc: Global,
    at: ObjId,
    word: &[u8],
    other: ObjId,
    out: &mut Vec<Lexeme>,
) -> Result<(), OutOfMemory>
    ensures { OnOk result (out.new.items ≡ out.old.items ++ expr_lexemes
        (spec.method at word.now (spec.one (reference other)))) }
{
    push_member(alloc, at, word, out)?;
    push_punct(Punct::LeftParenthesis, out)?;
    push_part(alloc, other, out)?;
    push_punct(Punct::RightParenthesis, out)
}

/// Appends what sets an attribute.
pub fn push_set_attribute(
    alloc: Global,
    node: ObjId,
    name: &Units,
    value: &Units,
    out: &mut Vec<Lexeme>,
) -> Result<(), OutOfMemory>
    ensures { OnOk result (out.new.items ≡ out.old.items
        ++ expr_lexemes (spec.attribute_expr node name.now value.now)) }
{
    push_member(alloc, node, b"setAttribute", out)?;
    push_punct(Punct::LeftParenthesis, out)?;
    push_text(name, out)?;
    push_punct(Punct::Comma, out)?;
    push_text(value, out)?;
    push_punct(Punct::RightParenthesis, out)
}

/// Appends what sets the value of an element.
pub fn push_set_value(
    alloc: Global,
    node: ObjId,
    text: &Units,
    out: &mut Vec<Lexeme>,
) -> Result<(), OutOfMemory>
    ensures { OnOk result (out.new.items ≡ out.old.items
        ++ expr_lexemes (spec.set_value_expr node text.now)) }
{
    push_member(alloc, node, b"value", out)?;
    push_punct(Punct::SimpleAssign, out)?;
    push_text(text, out)
}

/// Appends what initialises an event.
pub fn push_init(
    alloc: Global,
    event: ObjId,
    kind: &Units,
    bubbles: bool,
    cancelable: bool,
    out: &mut Vec<Lexeme>,
) -> Result<(), OutOfMemory>
    ensures { OnOk result (out.new.items ≡ out.old.items
        ++ expr_lexemes (spec.init_expr event kind.now bubbles cancelable)) }
{
    push_member(alloc, event, b"initEvent", out)?;
    push_punct(Punct::LeftParenthesis, out)?;
    push_text(kind, out)?;
    push_punct(Punct::Comma, out)?;
    push_boolean(bubbles, out)?;
    push_punct(Punct::Comma, out)?;
    push_boolean(cancelable, out)?;
    push_punct(Punct::RightParenthesis, out)
}

/// Appends what adds a listener.
pub fn push_listen(
    alloc: Global,
    node: ObjId,
    kind: &Units,
    call: ObjId,
    capture: bool,
    out: &mut Vec<Lexeme>,
) -> Result<(), OutOfMemory>
    ensures { OnOk result (out.new.items ≡ out.old.items
        ++ expr_lexemes (spec.listen_expr node kind.now call capture)) }
{
    push_member(alloc, node, b"addEventListener", out)?;
    push_punct(Punct::LeftParenthesis, out)?;
    push_text(kind, out)?;
    push_punct(Punct::Comma, out)?;
    push_part(alloc, call, out)?;
    push_punct(Punct::Comma, out)?;
    push_boolean(capture, out)?;
    push_punct(Punct::RightParenthesis, out)
}

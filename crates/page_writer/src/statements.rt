//! The lexemes of the statements of a saved page.

ghost use Rattle.std.specs.Prelude.{◌≡◌, ◌∷◌, [], ◌++◌, OnOk, codes};
ghost use Rattle.js_core.specs.declared.token.Punct.TheVariants as punct;
ghost use Rattle.js_print.specs.Lexemes.{boolean_lexeme, expr_lexemes, stmt_lexemes};
ghost use Rattle.js_print.specs.Places.{placed};
ghost use Rattle.js_print.specs.declared.lexeme.Lexeme.TheVariants as lexeme;
ghost use Rattle.js_print.specs.declared.place.Place.TheVariants.{Part};
ghost use Rattle.page_writer.specs.Statements as spec;
ghost use Rattle.rebuild_plan.specs.declared.statement.Rebuild.TheVariants as rebuild;

use crate::makers::{push_maker, push_object_function};
use crate::nodes::{push_call_with, push_init, push_listen, push_set_attribute, push_set_value};
use crate::references::{push_part, push_string, push_thing};
use crate::timers::{push_clear, push_filler, push_interval, push_timeout};
use crate::values::{push_boolean, push_value};
use js_core::{OutOfMemory, Punct, Units};
use js_print::{Lexeme, push_punct, push_text};
use js_values::{ObjId, Value};
use object_heap::Prop;
use rebuild_plan::{Maker, Rebuild};
use std::alloc::Global;

/// Appends a statement.
pub fn push_statement(
    alloc: Global,
    rebuild: &Rebuild,
    out: &mut Vec<Lexeme>,
) -> Result<(), OutOfMemory>
    ensures { OnOk result (out.new.items ≡ out.old.items
        ++ stmt_lexemes (spec.statement rebuild.now)) }
{
    push_rebuild(alloc, rebuild, out)?;
    push_punct(Punct::Semicolon, out)
}

fn push_rebuild(alloc: Global, rebuild: &Rebuild, out: &mut Vec<Lexeme>) -> Result<(), OutOfMemory>
    ensures { OnOk result (out.new.items ≡ out.old.items
        ++ expr_lexemes (spec.rebuild_expr rebuild.now)) }
{
    match rebuild {
        Rebuild::Make { number, maker } => push_make(alloc, *number, maker, out),
        Rebuild::Append { parent, child } => {
            push_call_with(alloc, *parent, b"appendChild", *child, out)
        }
        Rebuild::Attribute { node, name, value } => push_set_attribute(
            alloc, *node, name, value, out,
        ),
        Rebuild::SetValue { node, text } => push_set_value(alloc, *node, text, out),
        Rebuild::Init {
            event,
            kind,
            bubbles,
            cancelable,
        } => push_init(alloc, *event, kind, *bubbles, *cancelable, out),
        Rebuild::Dispatch { target, event } => {
            push_call_with(alloc, *target, b"dispatchEvent", *event, out)
        }
        Rebuild::Listen {
            node,
            kind,
            call,
            capture,
        } => push_listen(alloc, *node, kind, *call, *capture, out),
        Rebuild::Define { at, name, prop } => push_define(alloc, *at, name, prop, out),
        Rebuild::DefinePrototype {
            at,
            value,
            writable,
        } => { push_short(alloc, *at, b"prototype", value, *writable, out) }
        Rebuild::DefineLength {
            at,
            value,
            writable,
        } => { push_short(alloc, *at, b"length", value, *writable, out) }
        Rebuild::Filler => push_filler(alloc, out),
        Rebuild::Clear { id } => push_clear(alloc, *id, out),
        Rebuild::Timeout { call, rest } => push_timeout(alloc, *call, *rest, out),
        Rebuild::Interval { call, rest, period } => {
            push_interval(alloc, *call, *rest, *period, out)
        }
        Rebuild::Prevent { at } => push_prevent(alloc, *at, out),
    }
}

fn push_make(
    alloc: Global,
    number: u64,
    maker: &Maker,
    out: &mut Vec<Lexeme>,
) -> Result<(), OutOfMemory>
    ensures { OnOk result (out.new.items ≡ out.old.items
        ++ expr_lexemes (spec.rebuild_expr (rebuild.Make number maker.now))) }
{
    push_thing(alloc, number, out)?;
    push_punct(Punct::SimpleAssign, out)?;
    push_maker(alloc, maker, out)
}

fn push_prevent(alloc: Global, at: ObjId, out: &mut Vec<Lexeme>) -> Result<(), OutOfMemory>
    ensures { OnOk result (out.new.items ≡ out.old.items
        ++ expr_lexemes (spec.rebuild_expr (rebuild.Prevent at))) }
{
    push_object_function(alloc, b"preventExtensions", out)?;
    push_punct(Punct::LeftParenthesis, out)?;
    push_part(alloc, at, out)?;
    push_punct(Punct::RightParenthesis, out)
}

// A property with its four attributes.
fn push_define(
    alloc: Global,
    at: ObjId,
    name: &Units,
    prop: &Prop,
    out: &mut Vec<Lexeme>,
) -> Result<(), OutOfMemory>
    ensures { OnOk result (out.new.items ≡ out.old.items
        ++ expr_lexemes (spec.rebuild_expr (rebuild.Define at name.now prop.now))) }
{
    push_definition(alloc, at, out)?;
    push_text(name, out)?;
    push_punct(Punct::Comma, out)?;
    push_whole_descriptor(alloc, prop, out)?;
    push_punct(Punct::RightParenthesis, out)
}

// A property of which the value and whether it is writable are written.
fn push_short(
    alloc: Global,
    at: ObjId,
    name: &[u8],
    value: &Value,
    writable: bool,
    out: &mut Vec<Lexeme>,
) -> Result<(), OutOfMemory>
    ensures { OnOk result (out.new.items ≡ out.old.items
        ++ expr_lexemes (spec.define_expr at name.now (spec.short_descriptor value.now writable))) }
{
    push_definition(alloc, at, out)?;
    push_string(alloc, name, out)?;
    push_punct(Punct::Comma, out)?;
    push_short_descriptor(alloc, value, writable, out)?;
    push_punct(Punct::RightParenthesis, out)
}

// What stands before the name of a property.
fn push_definition(alloc: Global, at: ObjId, out: &mut Vec<Lexeme>) -> Result<(), OutOfMemory>
    ensures { OnOk result (out.new.items ≡ out.old.items
        ++ (expr_lexemes (spec.object_function (codes "defineProperty"))
        ++ lexeme.Punct punct.LeftParenthesis
        ∷ (placed Part (spec.reference at) (expr_lexemes (spec.reference at))
        ++ lexeme.Punct punct.Comma ∷ []))) }
{
    push_object_function(alloc, b"defineProperty", out)?;
    push_punct(Punct::LeftParenthesis, out)?;
    push_part(alloc, at, out)?;
    push_punct(Punct::Comma, out)
}

fn push_whole_descriptor(
    alloc: Global,
    prop: &Prop,
    out: &mut Vec<Lexeme>,
) -> Result<(), OutOfMemory>
    ensures { OnOk result (out.new.items ≡ out.old.items
        ++ expr_lexemes (spec.whole_descriptor prop.now)) }
{
    push_punct(Punct::LeftBrace, out)?;
    push_value_field(alloc, &prop.value, out)?;
    push_attribute(alloc, b"writable", prop.writable, out)?;
    push_attribute(alloc, b"enumerable", prop.enumerable, out)?;
    push_attribute(alloc, b"configurable", prop.configurable, out)?;
    push_punct(Punct::RightBrace, out)
}

fn push_short_descriptor(
    alloc: Global,
    value: &Value,
    writable: bool,
    out: &mut Vec<Lexeme>,
) -> Result<(), OutOfMemory>
    ensures { OnOk result (out.new.items ≡ out.old.items
        ++ expr_lexemes (spec.short_descriptor value.now writable)) }
{
    push_punct(Punct::LeftBrace, out)?;
    push_value_field(alloc, value, out)?;
    push_attribute(alloc, b"writable", writable, out)?;
    push_punct(Punct::RightBrace, out)
}

fn push_value_field(alloc: Global, value: &Value, out: &mut Vec<Lexeme>) -> Result<(), OutOfMemory>
    ensures { OnOk result (out.new.items ≡ out.old.items
        ++ lexeme.Text (codes "value") ∷ lexeme.Punct punct.Colon
        ∷ placed Part (spec.value_expr value.now) (expr_lexemes (spec.value_expr value.now))) }
{
    push_string(alloc, b"value", out)?;
    push_punct(Punct::Colon, out)?;
    push_value(alloc, value, out)
}

// An attribute after a comma.
fn push_attribute(
    alloc: Global,
    name: &[u8],
    value: bool,
    out: &mut Vec<Lexeme>,
) -> Result<(), OutOfMemory>
    ensures { OnOk result (out.new.items ≡ out.old.items
        ++ lexeme.Punct punct.Comma ∷ lexeme.Text name.now ∷ lexeme.Punct punct.Colon
        ∷ boolean_lexeme value ∷ []) }
{
    push_punct(Punct::Comma, out)?;
    push_string(alloc, name, out)?;
    push_punct(Punct::Colon, out)?;
    push_boolean(value, out)
}

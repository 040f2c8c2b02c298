//! The lexemes of values.

ghost use Rattle.std.specs.Prelude.{◌≡◌, ◌∷◌, [], ◌++◌, OnOk, Some};
ghost use Rattle.js_values.specs.declared.value.Value.TheVariants.{Undefined};
ghost use Rattle.js_print.specs.Lexemes.{boolean_lexeme, expr_lexemes, more_parts_lexemes};
ghost use Rattle.js_print.specs.Places.{placed};
ghost use Rattle.js_print.specs.declared.place.Place.TheVariants.{Part};
ghost use Rattle.page_writer.specs.Statements as spec;

use crate::references::{push_number, push_part, push_word};
use js_core::{Keyword, OutOfMemory, Punct, Whole};
use js_print::{Lexeme, push_keyword, push_punct, push_text};
use js_values::{ObjId, Value};
use std::alloc::Global;

/// Appends `true` or `false`.
pub fn push_boolean(value: bool, out: &mut Vec<Lexeme>) -> Result<(), OutOfMemory>
    ensures { OnOk result (out.new.items ≡ out.old.items ++ boolean_lexeme value ∷ []) }
{
    if value {
        return push_keyword(Keyword::True, out);
    }
    push_keyword(Keyword::False, out)
}

// A number, `-` and a number, or `NaN`.
fn push_whole(alloc: Global, number: Whole, out: &mut Vec<Lexeme>) -> Result<(), OutOfMemory>
    ensures { OnOk result (out.new.items ≡ out.old.items
        ++ expr_lexemes (spec.whole_expr number)) }
{
    match number.get() {
        None => push_word(alloc, b"NaN", out),
        Some(number) => push_integer(number, out),
    }
}

fn push_integer(number: i64, out: &mut Vec<Lexeme>) -> Result<(), OutOfMemory>
    ensures { OnOk result (out.new.items ≡ out.old.items
        ++ expr_lexemes (spec.whole_expr (Some number))) }
{
    if number < 0 {
        push_punct(Punct::MinusSign, out)?;
    }
    push_number(number.unsigned_abs(), out)
}

/// Appends a value, as it stands between commas.
pub fn push_value(alloc: Global, value: &Value, out: &mut Vec<Lexeme>) -> Result<(), OutOfMemory>
    ensures { OnOk result (out.new.items ≡ out.old.items
        ++ placed Part (spec.value_expr value.now) (expr_lexemes (spec.value_expr value.now))) }
{
    match value {
        Value::Undefined => push_undefined(out),
        Value::Null => push_keyword(Keyword::Null, out),
        Value::Bool(truth) => push_boolean(*truth, out),
        Value::Num(number) => push_whole(alloc, *number, out),
        Value::Text(text) => push_text(text, out),
        Value::Object(at) => push_part(alloc, *at, out),
    }
}

fn push_undefined(out: &mut Vec<Lexeme>) -> Result<(), OutOfMemory>
    ensures { OnOk result (out.new.items ≡ out.old.items
        ++ expr_lexemes (spec.value_expr Undefined)) }
{
    push_keyword(Keyword::Void, out)?;
    push_number(0, out)
}

/// Appends values, each after a comma.
pub fn push_more_values(
    alloc: Global,
    values: &[Value],
    out: &mut Vec<Lexeme>,
) -> Result<(), OutOfMemory>
    ensures { OnOk result (out.new.items ≡ out.old.items
        ++ more_parts_lexemes (spec.value_exprs values.now)) }
{
    let mut rest = values;
    while let [value, after @ ..] = rest {
        push_punct(Punct::Comma, out)?;
        push_value(alloc, value, out)?;
        rest = after;
    }
    Ok(())
}

/// Appends a prototype, or `null`, as it stands between commas.
pub fn push_proto(
    alloc: Global,
    proto: Option<ObjId>,
    out: &mut Vec<Lexeme>,
) -> Result<(), OutOfMemory>
    ensures { OnOk result (out.new.items ≡ out.old.items
        ++ placed Part (spec.proto_expr proto) (expr_lexemes (spec.proto_expr proto))) }
{
    match proto {
        None => push_keyword(Keyword::Null, out),
        Some(at) => push_part(alloc, at, out),
    }
}

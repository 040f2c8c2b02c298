//! The lexemes of what makes a thing.

ghost use Rattle.std.specs.Prelude.{◌≡◌, ◌++◌, OnOk};
ghost use Rattle.js_print.specs.Lexemes.{code_lexemes, expr_lexemes, more_names, more_parts_lexemes, names, parts_lexemes, stmts_lexemes};
ghost use Rattle.js_print.specs.Places.{braced, parenthesised, placed};
ghost use Rattle.js_print.specs.declared.place.Place.TheVariants.{Part};
ghost use Rattle.page_writer.specs.Statements as spec;
ghost use Rattle.rebuild_plan.specs.declared.statement.Maker.TheVariants as made;

use crate::nodes::{push_created, push_new_event};
use crate::references::{push_member, push_word};
use crate::values::{push_more_values, push_proto, push_value};
use code_table::FunctionCode;
use js_core::{Keyword, OutOfMemory, Punct, Units};
use js_print::{Lexeme, push_code, push_keyword, push_name, push_punct, push_unnamed_code};
use js_values::{ErrorKind, ObjId, Value};
use rebuild_plan::Maker;
use std::alloc::Global;

/// Appends `Object` and the name of one of its functions.
pub fn push_object_function(
    alloc: Global,
    word: &[u8],
    out: &mut Vec<Lexeme>,
) -> Result<(), OutOfMemory>
    ensures { OnOk result (out.new.items ≡ out.old.items
        ++ expr_lexemes (spec.object_function word.now)) }
{
    push_word(alloc, b"Object", out)?;
    push_punct(Punct::Dot, out)?;
    push_word(alloc, word, out)
}

/// Appends what makes a thing, as it stands after `=`.
pub fn push_maker(alloc: Global, maker: &Maker, out: &mut Vec<Lexeme>) -> Result<(), OutOfMemory>
    ensures { OnOk result (out.new.items ≡ out.old.items
        ++ placed Part (spec.maker_expr maker.now) (expr_lexemes (spec.maker_expr maker.now))) }
{
    match maker {
        Maker::Plain(proto) => push_plain(alloc, *proto, out),
        Maker::List => push_list(out),
        Maker::Fault(kind) => push_fault(alloc, *kind, out),
        Maker::Func { code, needs } => push_function_maker(alloc, code, needs.as_slice(), out),
        Maker::Bind { target, this, args } => {
            push_bind(alloc, *target, this, args.as_slice(), out)
        }
        Maker::Element(name) => push_created(alloc, b"createElement", name, out),
        Maker::Text(text) => push_created(alloc, b"createTextNode", text, out),
        Maker::Comment(text) => push_created(alloc, b"createComment", text, out),
        Maker::Event => push_new_event(alloc, out),
    }
}

fn push_plain(alloc: Global, proto: Option<ObjId>, out: &mut Vec<Lexeme>) -> Result<(), OutOfMemory>
    ensures { OnOk result (out.new.items ≡ out.old.items
        ++ expr_lexemes (spec.maker_expr (made.Plain proto))) }
{
    push_object_function(alloc, b"create", out)?;
    push_punct(Punct::LeftParenthesis, out)?;
    push_proto(alloc, proto, out)?;
    push_punct(Punct::RightParenthesis, out)
}

fn push_list(out: &mut Vec<Lexeme>) -> Result<(), OutOfMemory>
    ensures { OnOk result (out.new.items ≡ out.old.items
        ++ expr_lexemes (spec.maker_expr made.List)) }
{
    push_punct(Punct::LeftBracket, out)?;
    push_punct(Punct::RightBracket, out)
}

fn push_fault(alloc: Global, kind: ErrorKind, out: &mut Vec<Lexeme>) -> Result<(), OutOfMemory>
    ensures { OnOk result (out.new.items ≡ out.old.items
        ++ expr_lexemes (spec.maker_expr (made.Fault kind))) }
{
    push_keyword(Keyword::New, out)?;
    push_word(alloc, kind.name(), out)?;
    push_punct(Punct::LeftParenthesis, out)?;
    push_punct(Punct::RightParenthesis, out)
}

fn push_bind(
    alloc: Global,
    target: ObjId,
    this: &Value,
    args: &[Value],
    out: &mut Vec<Lexeme>,
) -> Result<(), OutOfMemory>
    ensures { OnOk result (out.new.items ≡ out.old.items
        ++ expr_lexemes (spec.maker_expr (made.Bind target this.now args.now))) }
{
    push_member(alloc, target, b"bind", out)?;
    push_punct(Punct::LeftParenthesis, out)?;
    push_value(alloc, this, out)?;
    push_more_values(alloc, args, out)?;
    push_punct(Punct::RightParenthesis, out)
}

// Appends a function, with its name where it is held with it.
fn push_function(code: &FunctionCode, out: &mut Vec<Lexeme>) -> Result<(), OutOfMemory>
    ensures { OnOk result (out.new.items ≡ out.old.items ++ code_lexemes code.now) }
{
    if code.name().is_some() {
        return push_code(code.source(), out);
    }
    push_unnamed_code(code.source(), out)
}

// A function, in a call of one that binds its needed variables, where it has some.
fn push_function_maker(
    alloc: Global,
    code: &FunctionCode,
    needs: &[(Units, Value)],
    out: &mut Vec<Lexeme>,
) -> Result<(), OutOfMemory>
    ensures { OnOk result (out.new.items ≡ out.old.items
        ++ expr_lexemes (spec.function_expr code.now needs.now)) }
{
    if needs.is_empty() {
        return push_function(code, out);
    }
    push_binder(code, needs, out)?;
    push_punct(Punct::LeftParenthesis, out)?;
    push_need_values(alloc, needs, out)?;
    push_punct(Punct::RightParenthesis, out)
}

// A function of the needed variables that gives the function, in parentheses.
fn push_binder(
    code: &FunctionCode,
    needs: &[(Units, Value)],
    out: &mut Vec<Lexeme>,
) -> Result<(), OutOfMemory>
    ensures { OnOk result (out.new.items ≡ out.old.items
        ++ parenthesised (code_lexemes (spec.binder code.now needs.now))) }
{
    push_punct(Punct::LeftParenthesis, out)?;
    push_keyword(Keyword::Function, out)?;
    push_formals(needs, out)?;
    push_return(code, out)?;
    push_punct(Punct::RightParenthesis, out)
}

// The body that gives a function, in braces.
fn push_return(code: &FunctionCode, out: &mut Vec<Lexeme>) -> Result<(), OutOfMemory>
    ensures { OnOk result (out.new.items ≡ out.old.items
        ++ braced (stmts_lexemes (spec.giving code.now))) }
{
    push_punct(Punct::LeftBrace, out)?;
    push_keyword(Keyword::Return, out)?;
    push_function(code, out)?;
    push_punct(Punct::Semicolon, out)?;
    push_punct(Punct::RightBrace, out)
}

// The names of needed variables, in parentheses.
fn push_formals(needs: &[(Units, Value)], out: &mut Vec<Lexeme>) -> Result<(), OutOfMemory>
    ensures { OnOk result (out.new.items ≡ out.old.items
        ++ parenthesised (names (spec.need_names needs.now))) }
{
    push_punct(Punct::LeftParenthesis, out)?;
    push_need_names(needs, out)?;
    push_punct(Punct::RightParenthesis, out)
}

fn push_need_names(needs: &[(Units, Value)], out: &mut Vec<Lexeme>) -> Result<(), OutOfMemory>
    ensures { OnOk result (out.new.items ≡ out.old.items ++ names (spec.need_names needs.now)) }
{
    let [need, more @ ..] = needs else {
        return Ok(());
    };
    push_name(&need.0, out)?;
    push_more_need_names(more, out)
}

// Names, each after a comma.
fn push_more_need_names(needs: &[(Units, Value)], out: &mut Vec<Lexeme>) -> Result<(), OutOfMemory>
    ensures { OnOk result (out.new.items ≡ out.old.items
        ++ more_names (spec.need_names needs.now)) }
{
    let mut rest = needs;
    while let [need, after @ ..] = rest {
        push_punct(Punct::Comma, out)?;
        push_name(&need.0, out)?;
        rest = after;
    }
    Ok(())
}

// What needed variables hold, with commas between.
fn push_need_values(
    alloc: Global,
    needs: &[(Units, Value)],
    out: &mut Vec<Lexeme>,
) -> Result<(), OutOfMemory>
    ensures { OnOk result (out.new.items ≡ out.old.items
        ++ parts_lexemes (spec.need_exprs needs.now)) }
{
    let [need, more @ ..] = needs else {
        return Ok(());
    };
    push_value(alloc, &need.1, out)?;
    push_more_need_values(alloc, more, out)
}

// The same, each after a comma.
fn push_more_need_values(
    alloc: Global,
    needs: &[(Units, Value)],
    out: &mut Vec<Lexeme>,
) -> Result<(), OutOfMemory>
    ensures { OnOk result (out.new.items ≡ out.old.items
        ++ more_parts_lexemes (spec.need_exprs needs.now)) }
{
    let mut rest = needs;
    while let [need, after @ ..] = rest {
        push_punct(Punct::Comma, out)?;
        push_value(alloc, &need.1, out)?;
        rest = after;
    }
    Ok(())
}

//! The lexemes of expressions (ECMA-262 5.1 section 11) and functions (section 13).
//!
//! What is nested is recursed into, which is bounded by the height of trees. A list is gone over in a loop.

ghost use Rattle.std.specs.Prelude.{◌≡◌, [], ◌∷◌, ◌++◌, OnOk};
ghost use Rattle.js_core.specs.Tree.{exprs_of, maybe_expr, holes_of, fields_of};
ghost use Rattle.js_core.specs.Tree as tree;
ghost use Rattle.js_core.specs.declared.token.Punct.TheVariants as punct;
ghost use Rattle.js_print.specs.declared.lexeme.Lexeme.TheVariants as lexeme;
ghost use Rattle.js_print.specs.declared.place.Place.TheVariants.{Operand, Part};
ghost use Rattle.js_print.specs.Lexemes as spec;
ghost use Rattle.js_print.specs.Places.{placed, parenthesised};
ghost use Rattle.js_print.specs.Printing.{unnamed};

use crate::lexeme::Lexeme;
use crate::operators::{assign_punct, binary_lexeme, unary_lexeme, update_punct};
use crate::place::{Place, is_bare};
use crate::pushing::{
    boolean_lexeme, push_formals, push_keyword, push_lexeme, push_maybe_name, push_name,
    push_punct, push_text,
};
use crate::statements::push_body;
use js_core::{Code, Expr, ExprNode, Keyword, OutOfMemory, Punct, Units};

/// Appends the lexemes of an expression in its place.
#[cycle(printing)]
pub fn push_placed(
    place: Place,
    expression: &Expr,
    out: &mut Vec<Lexeme>,
) -> Result<(), OutOfMemory>
    ensures { OnOk result (out.new.items ≡ out.old.items
        ++ placed place expression.now (spec.expr_lexemes expression.now)) }
{
    if is_bare(place, expression) {
        return push_expression(expression, out);
    }
    push_punct(Punct::LeftParenthesis, out)?;
    push_expression(expression, out)?;
    push_punct(Punct::RightParenthesis, out)
}

#[cycle(printing)]
fn push_expression(expression: &Expr, out: &mut Vec<Lexeme>) -> Result<(), OutOfMemory>
    ensures { OnOk result (out.new.items ≡ out.old.items ++ spec.expr_lexemes expression.now) }
{
    match &expression.node {
        ExprNode::Name(name) => push_name(name, out),
        ExprNode::Num(number) => push_lexeme(Lexeme::Number(*number), out),
        ExprNode::Text(text) => push_text(text, out),
        ExprNode::Bool(value) => push_lexeme(boolean_lexeme(*value), out),
        ExprNode::Null => push_keyword(Keyword::Null, out),
        ExprNode::This => push_keyword(Keyword::This, out),
        ExprNode::List(elements) => push_list(elements.as_slice(), out),
        ExprNode::Literal(fields) => push_literal(fields.as_slice(), out),
        ExprNode::Func(code) => push_code(code, out),
        ExprNode::Member(object, name) => push_member(object, name, out),
        ExprNode::Index(object, index) => push_index(object, index, out),
        ExprNode::Call(callee, arguments) => push_call(callee, arguments.as_slice(), out),
        ExprNode::New(callee, arguments) => push_new(callee, arguments.as_slice(), out),
        ExprNode::Unary(op, operand) => {
            push_lexeme(unary_lexeme(*op), out)?;
            push_placed(Place::Operand, operand, out)
        }
        ExprNode::Update { up, prefix, target } => push_update(*up, *prefix, target, out),
        ExprNode::Binary(op, left, right) => push_infix(left, binary_lexeme(*op), right, out),
        ExprNode::And(left, right) => {
            push_infix(left, Lexeme::Punct(Punct::DoubleAmpersand), right, out)
        }
        ExprNode::Or(left, right) => {
            push_infix(left, Lexeme::Punct(Punct::DoubleVerticalBar), right, out)
        }
        ExprNode::Cond(test, first, second) => push_conditional(test, first, second, out),
        ExprNode::Assign(op, target, value) => {
            push_placed(Place::Operand, target, out)?;
            push_punct(assign_punct(op), out)?;
            push_placed(Place::Part, value, out)
        }
        ExprNode::Comma(parts) => push_parts(parts.as_slice(), out),
    }
}

#[cycle(printing)]
fn push_infix(
    left: &Expr,
    op: Lexeme,
    right: &Expr,
    out: &mut Vec<Lexeme>,
) -> Result<(), OutOfMemory>
    ensures { OnOk result (out.new.items ≡ out.old.items
        ++ (placed Operand left.now (spec.expr_lexemes left.now) ++ op
        ∷ placed Operand right.now (spec.expr_lexemes right.now))) }
{
    push_placed(Place::Operand, left, out)?;
    push_lexeme(op, out)?;
    push_placed(Place::Operand, right, out)
}

#[cycle(printing)]
fn push_conditional(
    test: &Expr,
    first: &Expr,
    second: &Expr,
    out: &mut Vec<Lexeme>,
) -> Result<(), OutOfMemory>
    ensures { OnOk result (out.new.items ≡ out.old.items
        ++ spec.expr_lexemes (tree.conditional test.now first.now second.now)) }
{
    push_placed(Place::Operand, test, out)?;
    push_punct(Punct::QuestionMark, out)?;
    push_placed(Place::Operand, first, out)?;
    push_punct(Punct::Colon, out)?;
    push_placed(Place::Operand, second, out)
}

#[cycle(printing)]
fn push_update(
    up: bool,
    prefix: bool,
    target: &Expr,
    out: &mut Vec<Lexeme>,
) -> Result<(), OutOfMemory>
    ensures { OnOk result (out.new.items ≡ out.old.items
        ++ spec.expr_lexemes (tree.update up prefix target.now)) }
{
    if prefix {
        push_punct(update_punct(up), out)?;
        return push_placed(Place::Operand, target, out);
    }
    push_placed(Place::Operand, target, out)?;
    push_punct(update_punct(up), out)
}

#[cycle(printing)]
fn push_member(object: &Expr, name: &Units, out: &mut Vec<Lexeme>) -> Result<(), OutOfMemory>
    ensures { OnOk result (out.new.items ≡ out.old.items
        ++ spec.expr_lexemes (tree.member object.now name.now)) }
{
    push_placed(Place::Base, object, out)?;
    push_punct(Punct::Dot, out)?;
    push_name(name, out)
}

#[cycle(printing)]
fn push_index(object: &Expr, index: &Expr, out: &mut Vec<Lexeme>) -> Result<(), OutOfMemory>
    ensures { OnOk result (out.new.items ≡ out.old.items
        ++ spec.expr_lexemes (tree.index object.now index.now)) }
{
    push_placed(Place::Base, object, out)?;
    push_punct(Punct::LeftBracket, out)?;
    push_placed(Place::Part, index, out)?;
    push_punct(Punct::RightBracket, out)
}

#[cycle(printing)]
fn push_call(callee: &Expr, arguments: &[Expr], out: &mut Vec<Lexeme>) -> Result<(), OutOfMemory>
    ensures { OnOk result (out.new.items ≡ out.old.items
        ++ spec.expr_lexemes (tree.call callee.now (exprs_of arguments.now))) }
{
    push_placed(Place::Operand, callee, out)?;
    push_arguments(arguments, out)
}

#[cycle(printing)]
fn push_new(callee: &Expr, arguments: &[Expr], out: &mut Vec<Lexeme>) -> Result<(), OutOfMemory>
    ensures { OnOk result (out.new.items ≡ out.old.items
        ++ spec.expr_lexemes (tree.construct callee.now (exprs_of arguments.now))) }
{
    push_keyword(Keyword::New, out)?;
    push_placed(Place::Constructor, callee, out)?;
    push_arguments(arguments, out)
}

#[cycle(printing)]
fn push_arguments(arguments: &[Expr], out: &mut Vec<Lexeme>) -> Result<(), OutOfMemory>
    ensures { OnOk result (out.new.items ≡ out.old.items
        ++ parenthesised (spec.parts_lexemes (exprs_of arguments.now))) }
{
    push_punct(Punct::LeftParenthesis, out)?;
    push_parts(arguments, out)?;
    push_punct(Punct::RightParenthesis, out)
}

// Expressions with commas between them.
#[cycle(printing)]
fn push_parts(parts: &[Expr], out: &mut Vec<Lexeme>) -> Result<(), OutOfMemory>
    ensures { OnOk result (out.new.items ≡ out.old.items
        ++ spec.parts_lexemes (exprs_of parts.now)) }
{
    let [part, more @ ..] = parts else {
        return Ok(());
    };
    push_placed(Place::Part, part, out)?;
    push_more_parts(more, out)
}

// Expressions, each after a comma.
#[cycle(printing)]
fn push_more_parts(parts: &[Expr], out: &mut Vec<Lexeme>) -> Result<(), OutOfMemory>
    ensures { OnOk result (out.new.items ≡ out.old.items
        ++ spec.more_parts_lexemes (exprs_of parts.now)) }
{
    let mut rest = parts;
    while let [part, after @ ..] = rest {
        push_punct(Punct::Comma, out)?;
        push_placed(Place::Part, part, out)?;
        rest = after;
    }
    Ok(())
}

#[cycle(printing)]
fn push_list(elements: &[Option<Expr>], out: &mut Vec<Lexeme>) -> Result<(), OutOfMemory>
    ensures { OnOk result (out.new.items ≡ out.old.items
        ++ spec.expr_lexemes (tree.list (holes_of elements.now))) }
{
    push_punct(Punct::LeftBracket, out)?;
    push_elements(elements, out)?;
    push_punct(Punct::RightBracket, out)
}

#[cycle(printing)]
fn push_elements(elements: &[Option<Expr>], out: &mut Vec<Lexeme>) -> Result<(), OutOfMemory>
    ensures { OnOk result (out.new.items ≡ out.old.items
        ++ spec.holes_lexemes (holes_of elements.now)) }
{
    let mut rest = elements;
    while let [element, after @ ..] = rest {
        push_element(element, out)?;
        push_separator(element, after, out)?;
        rest = after;
    }
    Ok(())
}

#[cycle(printing)]
fn push_element(element: &Option<Expr>, out: &mut Vec<Lexeme>) -> Result<(), OutOfMemory>
    ensures { OnOk result (out.new.items ≡ out.old.items
        ++ spec.hole_lexemes (maybe_expr element.now)) }
{
    match element {
        None => Ok(()),
        Some(element) => push_placed(Place::Part, element, out),
    }
}

// The comma after an element: none after a last one that is there.
#[tactic(auto, using(crate::proofs::Separators::before_others))]
fn push_separator(
    element: &Option<Expr>,
    after: &[Option<Expr>],
    out: &mut Vec<Lexeme>,
) -> Result<(), OutOfMemory>
    ensures { OnOk result (out.new.items ≡ out.old.items
        ++ spec.separator (maybe_expr element.now) (holes_of after.now)) }
{
    match element {
        None => push_punct(Punct::Comma, out),
        Some(_) => match after {
            [] => Ok(()),
            [_, ..] => push_punct(Punct::Comma, out),
        },
    }
}

#[cycle(printing)]
fn push_literal(fields: &[(Units, Expr)], out: &mut Vec<Lexeme>) -> Result<(), OutOfMemory>
    ensures { OnOk result (out.new.items ≡ out.old.items
        ++ spec.expr_lexemes (tree.literal (fields_of fields.now))) }
{
    push_punct(Punct::LeftBrace, out)?;
    push_fields(fields, out)?;
    push_punct(Punct::RightBrace, out)
}

#[cycle(printing)]
fn push_fields(fields: &[(Units, Expr)], out: &mut Vec<Lexeme>) -> Result<(), OutOfMemory>
    ensures { OnOk result (out.new.items ≡ out.old.items
        ++ spec.fields_lexemes (fields_of fields.now)) }
{
    let [(name, value), more @ ..] = fields else {
        return Ok(());
    };
    push_field(name, value, out)?;
    push_more_fields(more, out)
}

#[cycle(printing)]
fn push_more_fields(fields: &[(Units, Expr)], out: &mut Vec<Lexeme>) -> Result<(), OutOfMemory>
    ensures { OnOk result (out.new.items ≡ out.old.items
        ++ spec.more_fields_lexemes (fields_of fields.now)) }
{
    let mut rest = fields;
    while let [(name, value), after @ ..] = rest {
        push_punct(Punct::Comma, out)?;
        push_field(name, value, out)?;
        rest = after;
    }
    Ok(())
}

#[cycle(printing)]
fn push_field(name: &Units, value: &Expr, out: &mut Vec<Lexeme>) -> Result<(), OutOfMemory>
    ensures { OnOk result (out.new.items ≡ out.old.items ++ lexeme.Text name.now
        ∷ lexeme.Punct punct.Colon ∷ placed Part value.now (spec.expr_lexemes value.now)) }
{
    push_text(name, out)?;
    push_punct(Punct::Colon, out)?;
    push_placed(Place::Part, value, out)
}

/// Appends the lexemes of a function without its name.
pub fn push_unnamed_code(code: &Code, out: &mut Vec<Lexeme>) -> Result<(), OutOfMemory>
    ensures { OnOk result (out.new.items ≡ out.old.items ++ spec.code_lexemes (unnamed code.now)) }
{
    push_keyword(Keyword::Function, out)?;
    push_formals(code.formals.as_slice(), out)?;
    push_body(code.body.as_slice(), out)
}

/// Appends the lexemes of a function.
#[cycle(printing)]
pub fn push_code(code: &Code, out: &mut Vec<Lexeme>) -> Result<(), OutOfMemory>
    ensures { OnOk result (out.new.items ≡ out.old.items ++ spec.code_lexemes code.now) }
{
    push_keyword(Keyword::Function, out)?;
    push_maybe_name(&code.name, out)?;
    push_formals(code.formals.as_slice(), out)?;
    push_body(code.body.as_slice(), out)
}

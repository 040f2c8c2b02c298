//! Phrases with which reading begins, whose parts are read by what the caller hands in.

ghost use Rattle.std.specs.Prelude.{true};
ghost use Rattle.js_grammar.specs.ExpressionReader as reader;
ghost use Rattle.expression_parser.specs.Groups.{closing};
ghost use Rattle.expression_parser.specs.Inside.{limit, expression_in, body_in};
ghost use Rattle.expression_parser.specs.Reads.{Reads};

use crate::cursor::Cursor;
use crate::fault::ParseFault;
use crate::grammar::Grammar;
use crate::inside::Inside;
use crate::nesting::Nesting;
use js_core::Expr;
use js_grammar::Level;
use std::alloc::Global;

/// Reads an expression of this level.
pub fn expression_at_level<I: Inside + Drop>(
    alloc: Global,
    depth: Nesting,
    inside: I,
    inn: bool,
    level: Level,
    tokens: &mut Cursor,
) -> Result<Expr, ParseFault>
    requires { I.nests inside depth }
    ensures { Reads (reader.at_level limit (expression_in depth) (body_in depth) inn level
        tokens.old) result tokens.new }
{
    Grammar::new(alloc, depth, inside).at_level(inn, level, tokens)
}

/// Reads an expression, with commas.
pub fn sequence<I: Inside + Drop>(
    alloc: Global,
    depth: Nesting,
    inside: I,
    tokens: &mut Cursor,
) -> Result<Expr, ParseFault>
    requires { I.nests inside depth }
    ensures { Reads (reader.all limit (expression_in depth) (body_in depth) true tokens.old) result
        tokens.new }
{
    Grammar::new(alloc, depth, inside).all(true, tokens)
}

/// Reads the closing parenthesis of a group with this inside, and the rest of the expression, with commas, that the group
/// begins.
pub fn closed_group<I: Inside + Drop>(
    alloc: Global,
    depth: Nesting,
    inside: I,
    inner: Expr,
    tokens: &mut Cursor,
) -> Result<Expr, ParseFault>
    requires { I.nests inside depth }
    ensures { Reads (closing depth inner tokens.old) result tokens.new }
{
    Grammar::new(alloc, depth, inside).closed(inner, tokens)
}

//! Phrases with which reading begins, whose parts are read by what the caller hands in.

ghost use Rattle.js_grammar.specs.StatementReader as reader;
ghost use Rattle.expression_parser.specs.Inside.{limit, expression_in, body_in, statement_in};
ghost use Rattle.expression_parser.specs.Reads.{Reads, ReadsAll};

use crate::inner::Statements;
use expression_parser::{Cursor, Grammar, Inside, Nesting, ParseFault};
use js_core::Stmt;
use std::alloc::Global;

/// Reads a statement.
pub fn any_statement<I: Inside + Drop>(
    alloc: Global,
    depth: Nesting,
    inside: I,
    tokens: &mut Cursor,
) -> Result<Stmt, ParseFault>
    requires { I.nests inside depth }
    ensures { Reads (reader.any_statement limit (expression_in depth) (body_in depth)
        (statement_in depth) tokens.old) result tokens.new }
{
    Statements {
        grammar: Grammar::new(alloc, depth, inside),
    }
    .any_statement(tokens)
}

/// Reads the source elements before a `}` and the end.
pub fn elements<I: Inside + Drop>(
    alloc: Global,
    depth: Nesting,
    inside: I,
    tokens: &mut Cursor,
) -> Result<Vec<Stmt>, ParseFault>
    requires { I.nests inside depth }
    ensures { ReadsAll (reader.elements limit (expression_in depth) (body_in depth)
        (statement_in depth) tokens.old) result tokens.new }
{
    Statements {
        grammar: Grammar::new(alloc, depth, inside),
    }
    .elements(tokens)
}

//! Parts inside others: how deep they may nest, and what reads them.

ghost use Rattle.std.specs.Prelude.{◌≡◌};
ghost use Rattle.expression_parser.specs.Inside.{expression_in, body_in, statement_in};
ghost use Rattle.expression_parser.specs.Reads.{Reads, ReadsAll};

use crate::cursor::Cursor;
use crate::fault::ParseFault;
use crate::inside::Inside;
use crate::nesting::Nesting;
use js_core::{Expr, Stmt};
use js_grammar::Level;
use std::alloc::Global;
use std::marker::Model;

/// How deep parts may nest, and what reads those that nest less deep. A contract sees how deep.
#[derive(Drop)]
pub struct Depth<I: Inside> {
    nesting: Nesting,
    inside: I,
}

impl<I: Inside> Model for Depth<I> {
    ghost use Rattle.expression_parser.specs.declared.nesting.Nesting.{Nesting as Pure};

    ghost Value = { Pure };

    ghost view = { λ d. d.nesting };

    ghost invariant = { λ d. I.nests d.inside d.nesting };
}

impl<I: Inside> Depth<I> {
    /// This depth, to which this reads.
    pub fn new(nesting: Nesting, inside: I) -> Depth<I>
        requires { I.nests inside nesting }
        ensures { result ≡ nesting }
    {
        Depth { nesting, inside }
    }

    /// Reads an expression: whether `in` is an operator, and the level.
    pub fn expression(
        &self,
        alloc: Global,
        inn: bool,
        level: Level,
        tokens: &mut Cursor,
    ) -> Result<Expr, ParseFault>
        ensures { Reads (expression_in self.now inn level tokens.old) result tokens.new }
    {
        self.inside
            .expression(alloc, self.nesting, inn, level, tokens)
    }

    /// Reads what stands between the braces of a function.
    pub fn body(&self, alloc: Global, tokens: &mut Cursor) -> Result<Vec<Stmt>, ParseFault>
        ensures { ReadsAll (body_in self.now tokens.old) result tokens.new }
    {
        self.inside.body(alloc, self.nesting, tokens)
    }

    /// Reads a statement.
    pub fn statement(&self, alloc: Global, tokens: &mut Cursor) -> Result<Stmt, ParseFault>
        ensures { Reads (statement_in self.now tokens.old) result tokens.new }
    {
        self.inside.statement(alloc, self.nesting, tokens)
    }
}

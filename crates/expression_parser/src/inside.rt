//! What stands inside a phrase.

ghost use Rattle.expression_parser.specs.Inside.{expression_in, body_in, statement_in};
ghost use Rattle.expression_parser.specs.Reads.{Reads, ReadsAll};
ghost use Rattle.expression_parser.specs.declared.nesting.Nesting.{Nesting as Pure};

use crate::cursor::Cursor;
use crate::fault::ParseFault;
use crate::nesting::Nesting;
use js_core::{Expr, Stmt};
use js_grammar::Level;
use std::alloc::Global;

/// Reads what stands inside a phrase, where parts nest less deep than is told.
pub trait Inside {
    // Whether it reads so, to this depth.
    ghost nests: { Self → Pure → Type 0 };

    /// Reads an expression: whether `in` is an operator, and the level.
    fn expression(
        &self,
        alloc: Global,
        depth: Nesting,
        inn: bool,
        level: Level,
        tokens: &mut Cursor,
    ) -> Result<Expr, ParseFault>
        requires { nests self.now depth }
        ensures { Reads (expression_in depth inn level tokens.old) result tokens.new };

    /// Reads what stands between the braces of a function.
    fn body(
        &self,
        alloc: Global,
        depth: Nesting,
        tokens: &mut Cursor,
    ) -> Result<Vec<Stmt>, ParseFault>
        requires { nests self.now depth }
        ensures { ReadsAll (body_in depth tokens.old) result tokens.new };

    /// Reads a statement.
    fn statement(
        &self,
        alloc: Global,
        depth: Nesting,
        tokens: &mut Cursor,
    ) -> Result<Stmt, ParseFault>
        requires { nests self.now depth }
        ensures { Reads (statement_in depth tokens.old) result tokens.new };
}

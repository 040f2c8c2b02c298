//! Function values that read what stands inside a phrase.

ghost use Rattle.script_parser.specs.Functions.{Nests};

use expression_parser::{Cursor, Inside, Nesting, ParseFault};
use js_core::{Expr, Stmt};
use js_grammar::Level;
use std::alloc::Global;

/// The functions that read what stands inside a phrase.
#[derive(Clone, Copy)]
pub struct Functions<E, B, S> {
    /// Reads an expression, to a depth: whether `in` is an operator, and the level.
    pub expression: E,
    /// Reads what stands between the braces of a function, to a depth.
    pub body: B,
    /// Reads a statement, to a depth.
    pub statement: S,
}

impl<
    E: Fn(Global, Nesting, bool, Level, &mut Cursor) -> Result<Expr, ParseFault>,
    B: Fn(Global, Nesting, &mut Cursor) -> Result<Vec<Stmt>, ParseFault>,
    S: Fn(Global, Nesting, &mut Cursor) -> Result<Stmt, ParseFault>,
> Inside for Functions<E, B, S> {
    ghost nests = { λ f depth. Nests depth (E.pre f.expression) (E.post f.expression)
        (B.pre f.body) (B.post f.body) (S.pre f.statement) (S.post f.statement) };

    fn expression(
        &self,
        alloc: Global,
        depth: Nesting,
        inn: bool,
        level: Level,
        tokens: &mut Cursor,
    ) -> Result<Expr, ParseFault> {
        (self.expression)(alloc, depth, inn, level, tokens)
    }

    fn body(
        &self,
        alloc: Global,
        depth: Nesting,
        tokens: &mut Cursor,
    ) -> Result<Vec<Stmt>, ParseFault> {
        (self.body)(alloc, depth, tokens)
    }

    fn statement(
        &self,
        alloc: Global,
        depth: Nesting,
        tokens: &mut Cursor,
    ) -> Result<Stmt, ParseFault> {
        (self.statement)(alloc, depth, tokens)
    }
}

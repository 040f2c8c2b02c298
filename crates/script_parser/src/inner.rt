//! What stands inside a statement.

ghost use Rattle.std.specs.Prelude.{◌≡◌, [], ◌∷◌, IfOk};
ghost use Rattle.js_core.specs.Tree.{stmts_of};
ghost use Rattle.js_grammar.specs.Statements.{body_of as spec_body_of};
ghost use Rattle.js_grammar.specs.StatementReader as reader;
ghost use Rattle.expression_parser.specs.Inside.{limit, expression_in, body_in, statement_in};
ghost use Rattle.expression_parser.specs.Reads.{Reads};

use expression_parser::{Cursor, Grammar, Inside, ParseFault};
use js_core::{Expr, OutOfMemory, Stmt, StmtNode};
use std::alloc::Global;

/// What reads the phrases of ECMA-262 5.1 sections 12 to 14, a method for each.
#[derive(Drop)]
pub struct Statements<I: Inside> {
    /// What reads expressions, and how deep parts inside may nest.
    pub grammar: Grammar<I>,
}

impl<I: Inside> Statements<I> {
    /// Reads a statement inside another.
    pub fn statement(&self, tokens: &mut Cursor) -> Result<Stmt, ParseFault>
        ensures { Reads (statement_in self.now.grammar.depth tokens.old) result tokens.new }
    {
        self.grammar.depth.statement(self.grammar.alloc, tokens)
    }

    /// Reads a whole expression.
    pub fn expression(&self, tokens: &mut Cursor) -> Result<Expr, ParseFault>
        ensures { Reads (reader.expression limit (expression_in self.now.grammar.depth)
            (body_in self.now.grammar.depth) (statement_in self.now.grammar.depth) tokens.old)
            result tokens.new }
    {
        self.grammar.all(true, tokens)
    }
}

/// The statements that a statement stands for as the body of another: those of a block, or it alone.
pub fn body_of(alloc: Global, statement: Stmt) -> Result<Vec<Stmt>, OutOfMemory>
    ensures { IfOk result (λ found. stmts_of found.items ≡ spec_body_of statement) }
{
    match statement.into_node() {
        StmtNode::Block(found) => Ok(found),
        node => alone(alloc, Stmt::new(node)),
    }
}

fn alone(alloc: Global, statement: Stmt) -> Result<Vec<Stmt>, OutOfMemory>
    ensures { IfOk result (λ found. found.items ≡ statement ∷ []) }
{
    let mut found = Vec::with_capacity(alloc, 1)?;
    found.push(statement)?;
    Ok(found)
}

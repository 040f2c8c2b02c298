//! Blocks (ECMA-262 5.1 section 12.1) and `if` (section 12.5).

ghost use Rattle.std.specs.Prelude.{option_map};
ghost use Rattle.js_core.specs.Tree as tree;
ghost use Rattle.js_core.specs.Tree.{maybe_stmts, stmts_of};
ghost use Rattle.js_grammar.specs.StatementReader as reader;
ghost use Rattle.expression_parser.specs.Inside.{limit, expression_in, body_in, statement_in};
ghost use Rattle.expression_parser.specs.Reads.{Reads};
ghost use Rattle.expression_parser.specs.Reads.{ReadsAll};
ghost use Rattle.js_grammar.specs.Parser.{many as spec_many};

use crate::ending::has_more;
use crate::inner::{Statements, body_of};
use crate::node::node;
use expression_parser::{Cursor, Inside, ParseFault, many};
use js_core::{Expr, If, Keyword, Punct, Stmt, StmtNode};
use js_grammar::Sign;

impl<I: Inside> Statements<I> {
    fn statements(&self, tokens: &mut Cursor) -> Result<Vec<Stmt>, ParseFault>
        ensures { ReadsAll (spec_many reader.has_more
            (statement_in self.now.grammar.depth) tokens.old) result tokens.new }
    {
        many(
            self.grammar.alloc,
            tokens,
            |tokens| has_more(tokens),
            |tokens| self.statement(tokens),
        )
    }

    /// Reads statements in braces.
    #[tactic(auto, unfolding(js_grammar::specs::StatementReader::braced))]
    pub fn braced(&self, tokens: &mut Cursor) -> Result<Vec<Stmt>, ParseFault>
        ensures { ReadsAll (reader.braced limit (expression_in self.now.grammar.depth)
            (body_in self.now.grammar.depth) (statement_in self.now.grammar.depth) tokens.old)
            result tokens.new }
    {
        tokens.expect(Sign::Mark(Punct::LeftBrace))?;
        let found = self.statements(tokens)?;
        tokens.expect(Sign::Mark(Punct::RightBrace))?;
        Ok(found)
    }

    /// Reads a block.
    #[tactic(auto, unfolding(js_grammar::specs::StatementReader::block))]
    pub fn block(&self, tokens: &mut Cursor) -> Result<Stmt, ParseFault>
        ensures { Reads (reader.block limit (expression_in self.now.grammar.depth)
            (body_in self.now.grammar.depth) (statement_in self.now.grammar.depth) tokens.old)
            result tokens.new }
    {
        let found = self.braced(tokens)?;
        node(StmtNode::Block(found), tokens)
    }

    /// Reads an expression in parentheses.
    #[tactic(auto, unfolding(js_grammar::specs::StatementReader::condition))]
    pub fn condition(&self, tokens: &mut Cursor) -> Result<Expr, ParseFault>
        ensures { Reads (reader.condition limit (expression_in self.now.grammar.depth)
            (body_in self.now.grammar.depth) (statement_in self.now.grammar.depth) tokens.old)
            result tokens.new }
    {
        tokens.expect(Sign::Mark(Punct::LeftParenthesis))?;
        let value = self.expression(tokens)?;
        tokens.expect(Sign::Mark(Punct::RightParenthesis))?;
        Ok(value)
    }

    // The `if` with these parts.
    fn branching(
        &self,
        test: Expr,
        first: Vec<Stmt>,
        second: Option<Vec<Stmt>>,
        tokens: &Cursor,
    ) -> Result<Stmt, ParseFault>
        ensures { Reads (reader.node limit (tree.if_else test (stmts_of first.items)
            (maybe_stmts (option_map (λ v. v.items) second))) tokens.now) result tokens.now }
    {
        let parts = If {
            test,
            first,
            second,
        };
        node(StmtNode::If(Box::new(self.grammar.alloc, parts)?), tokens)
    }

    /// Reads what stands behind `if`. An `else` belongs to the nearest `if`.
    #[inline(never)]
    #[tactic(auto, unfolding(js_grammar::specs::StatementReader::conditional, js_grammar::specs::Parser::eat))]
    pub fn conditional(&self, tokens: &mut Cursor) -> Result<Stmt, ParseFault>
        ensures { Reads (reader.conditional limit (expression_in self.now.grammar.depth)
            (body_in self.now.grammar.depth) (statement_in self.now.grammar.depth) tokens.old)
            result tokens.new }
    {
        let test = self.condition(tokens)?;
        let first = self.statement(tokens)?;
        if tokens.eat(Sign::Word(Keyword::Else)) {
            let second = self.statement(tokens)?;
            let body = body_of(self.grammar.alloc, first)?;
            let other = body_of(self.grammar.alloc, second)?;
            return self.branching(test, body, Some(other), tokens);
        }
        let body = body_of(self.grammar.alloc, first)?;
        self.branching(test, body, None, tokens)
    }
}

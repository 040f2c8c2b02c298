//! `do` and `while` (ECMA-262 5.1 sections 12.6.1 and 12.6.2).

ghost use Rattle.js_grammar.specs.StatementReader as reader;
ghost use Rattle.expression_parser.specs.Inside.{limit, expression_in, body_in, statement_in};
ghost use Rattle.expression_parser.specs.Reads.{Reads};

use crate::ending::ended;
use crate::inner::{Statements, body_of};
use crate::node::node;
use expression_parser::{Cursor, Inside, ParseFault};
use js_core::{Keyword, Stmt, StmtNode};
use js_grammar::{Ending, Sign};

impl<I: Inside> Statements<I> {
    /// Reads what stands behind `do`.
    #[inline(never)]
    #[tactic(auto, unfolding(js_grammar::specs::StatementReader::do_while))]
    pub fn do_while(&self, tokens: &mut Cursor) -> Result<Stmt, ParseFault>
        ensures { Reads (reader.do_while limit (expression_in self.now.grammar.depth)
            (body_in self.now.grammar.depth) (statement_in self.now.grammar.depth) tokens.old)
            result tokens.new }
    {
        let repeated = self.statement(tokens)?;
        tokens.expect(Sign::Word(Keyword::While))?;
        let test = self.condition(tokens)?;
        ended(tokens, Ending::AfterAll)?;
        let body = body_of(self.grammar.alloc, repeated)?;
        node(
            StmtNode::Do(body, Box::new(self.grammar.alloc, test)?),
            tokens,
        )
    }

    /// Reads what stands behind `while`.
    #[inline(never)]
    pub fn while_loop(&self, tokens: &mut Cursor) -> Result<Stmt, ParseFault>
        ensures { Reads (reader.while limit (expression_in self.now.grammar.depth)
            (body_in self.now.grammar.depth) (statement_in self.now.grammar.depth) tokens.old)
            result tokens.new }
    {
        let test = self.condition(tokens)?;
        let repeated = self.statement(tokens)?;
        let body = body_of(self.grammar.alloc, repeated)?;
        node(
            StmtNode::While(Box::new(self.grammar.alloc, test)?, body),
            tokens,
        )
    }
}

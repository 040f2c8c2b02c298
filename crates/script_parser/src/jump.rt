//! `continue`, `break`, `return` and `throw` (ECMA-262 5.1 sections 12.7 to 12.9 and 12.13).

ghost use Rattle.js_grammar.specs.StatementReader as reader;
ghost use Rattle.expression_parser.specs.Inside.{limit, expression_in, body_in, statement_in};
ghost use Rattle.expression_parser.specs.Reads.{Reads};

use crate::ending::{READ_EXPRESSION, ended, returns};
use crate::inner::Statements;
use crate::node::node;
use expression_parser::{Cursor, Inside, NotScript, ParseFault};
use js_core::{Stmt, StmtNode};
use js_grammar::Ending;

impl<I: Inside> Statements<I> {
    /// Reads the end of this statement.
    #[tactic(auto, unfolding(js_grammar::specs::StatementReader::ended_as))]
    pub fn ended_as(&self, statement: Stmt, tokens: &mut Cursor) -> Result<Stmt, ParseFault>
        ensures { Reads (reader.ended_as limit (expression_in self.now.grammar.depth)
            (body_in self.now.grammar.depth) (statement_in self.now.grammar.depth) statement
            tokens.old) result tokens.new }
    {
        ended(tokens, Ending::AfterAll)?;
        Ok(statement)
    }

    /// Reads the operand of a `return`, and its end.
    #[tactic(auto, unfolding(js_grammar::specs::StatementReader::returned))]
    fn returned(&self, tokens: &mut Cursor) -> Result<Stmt, ParseFault>
        ensures { Reads (reader.returned limit (expression_in self.now.grammar.depth)
            (body_in self.now.grammar.depth) (statement_in self.now.grammar.depth) tokens.old)
            result tokens.new }
    {
        let value = self.expression(tokens)?;
        ended(tokens, READ_EXPRESSION)?;
        node(StmtNode::Return(Some(value)), tokens)
    }

    fn return_by(&self, is_bare: bool, tokens: &mut Cursor) -> Result<Stmt, ParseFault>
        ensures { Reads (reader.return_by limit (expression_in self.now.grammar.depth)
            (body_in self.now.grammar.depth) (statement_in self.now.grammar.depth) is_bare
            tokens.old) result tokens.new }
    {
        if !is_bare {
            return self.returned(tokens);
        }
        let statement = Stmt::new(StmtNode::Return(None));
        self.ended_as(statement, tokens)
    }

    /// Reads what stands behind `return`: an operand only where it stands in the same line.
    pub fn return_statement(&self, tokens: &mut Cursor) -> Result<Stmt, ParseFault>
        ensures { Reads (reader.return limit (expression_in self.now.grammar.depth)
            (body_in self.now.grammar.depth) (statement_in self.now.grammar.depth) tokens.old)
            result tokens.new }
    {
        self.return_by(returns(tokens), tokens)
    }

    #[tactic(auto, unfolding(js_grammar::specs::StatementReader::thrown))]
    fn thrown(&self, tokens: &mut Cursor) -> Result<Stmt, ParseFault>
        ensures { Reads (reader.thrown limit (expression_in self.now.grammar.depth)
            (body_in self.now.grammar.depth) (statement_in self.now.grammar.depth) tokens.old)
            result tokens.new }
    {
        let value = self.expression(tokens)?;
        ended(tokens, READ_EXPRESSION)?;
        node(StmtNode::Throw(value), tokens)
    }

    /// Reads what stands behind `throw`. `NotScript` where a line end stands before the operand.
    #[tactic(auto, unfolding(js_grammar::specs::StatementReader::throw))]
    pub fn throw(&self, tokens: &mut Cursor) -> Result<Stmt, ParseFault>
        ensures { Reads (reader.throw limit (expression_in self.now.grammar.depth)
            (body_in self.now.grammar.depth) (statement_in self.now.grammar.depth) tokens.old)
            result tokens.new }
    {
        if !tokens.same_line() {
            return Err(ParseFault::Cause(NotScript));
        }
        self.thrown(tokens)
    }
}

//! Declarations of variables (ECMA-262 5.1 section 12.2), and expression statements (section 12.4).

ghost use Rattle.std.specs.Prelude.{true};
ghost use Rattle.js_grammar.specs.StatementReader as reader;
ghost use Rattle.expression_parser.specs.Inside.{limit, expression_in, body_in, statement_in};
ghost use Rattle.expression_parser.specs.Reads.{Reads};
ghost use Rattle.expression_parser.specs.Reads.{ReadsAll};
ghost use Rattle.js_grammar.specs.Parser.{separated as spec_separated};

use crate::ending::{READ_EXPRESSION, ended, ending_of};
use crate::inner::Statements;
use crate::node::node;
use expression_parser::{Cursor, Inside, ParseFault, separated};
use js_core::{Declarator, Expr, Punct, Stmt, StmtNode, Units};
use js_grammar::Sign;

impl<I: Inside> Statements<I> {
    #[tactic(auto, unfolding(js_grammar::specs::StatementReader::declared_by))]
    fn declared_by(
        &self,
        inn: bool,
        name: Units,
        is_initialised: bool,
        tokens: &mut Cursor,
    ) -> Result<Declarator, ParseFault>
        ensures { Reads (reader.declared_by limit (expression_in self.now.grammar.depth)
            (body_in self.now.grammar.depth) (statement_in self.now.grammar.depth) inn name
            is_initialised tokens.old) result tokens.new }
    {
        if !is_initialised {
            return Ok(Declarator { name, value: None });
        }
        let value = self.grammar.one(inn, tokens)?;
        Ok(Declarator {
            name,
            value: Some(value),
        })
    }

    #[tactic(auto, unfolding(js_grammar::specs::StatementReader::declaration, js_grammar::specs::Parser::eat))]
    fn declaration(&self, inn: bool, tokens: &mut Cursor) -> Result<Declarator, ParseFault>
        ensures { Reads (reader.declaration limit (expression_in self.now.grammar.depth)
            (body_in self.now.grammar.depth) (statement_in self.now.grammar.depth) inn tokens.old)
            result tokens.new }
    {
        let name = tokens.identifier()?;
        let is_initialised = tokens.eat(Sign::Mark(Punct::SimpleAssign));
        self.declared_by(inn, name, is_initialised, tokens)
    }

    /// Reads declarations with commas between them, where `in` is an operator if `inn`.
    pub fn declarations(
        &self,
        inn: bool,
        tokens: &mut Cursor,
    ) -> Result<Vec<Declarator>, ParseFault>
        ensures { ReadsAll (spec_separated (reader.declaration limit
            (expression_in self.now.grammar.depth) (body_in self.now.grammar.depth)
            (statement_in self.now.grammar.depth) inn) tokens.old) result tokens.new }
    {
        separated(
            self.grammar.alloc,
            tokens,
            |tokens| self.declaration(inn, tokens),
        )
    }

    /// Reads the declarations behind `var`, and their end.
    #[tactic(auto, unfolding(js_grammar::specs::StatementReader::variables))]
    pub fn variables(&self, tokens: &mut Cursor) -> Result<Stmt, ParseFault>
        ensures { Reads (reader.variables limit (expression_in self.now.grammar.depth)
            (body_in self.now.grammar.depth) (statement_in self.now.grammar.depth) tokens.old)
            result tokens.new }
    {
        let found = self.declarations(true, tokens)?;
        ended(tokens, ending_of(found.as_slice()))?;
        node(StmtNode::Var(found), tokens)
    }

    /// Reads an expression statement.
    #[tactic(auto, unfolding(js_grammar::specs::StatementReader::expressed))]
    pub fn expressed(&self, tokens: &mut Cursor) -> Result<Stmt, ParseFault>
        ensures { Reads (reader.expressed limit (expression_in self.now.grammar.depth)
            (body_in self.now.grammar.depth) (statement_in self.now.grammar.depth) tokens.old)
            result tokens.new }
    {
        let value = self.expression(tokens)?;
        ended(tokens, READ_EXPRESSION)?;
        node(StmtNode::Expr(value), tokens)
    }
}

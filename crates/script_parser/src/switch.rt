//! `switch` (ECMA-262 5.1 section 12.11).

ghost use Rattle.std.specs.Prelude.{◌≡◌};
ghost use Rattle.js_grammar.specs.Parser.{many as spec_many};
ghost use Rattle.js_grammar.specs.Statements as spec;
ghost use Rattle.js_grammar.specs.StatementReader as reader;
ghost use Rattle.expression_parser.specs.Inside.{limit, expression_in, body_in, statement_in};
ghost use Rattle.expression_parser.specs.Reads.{Reads};
ghost use Rattle.expression_parser.specs.Reads.{ReadsAll};
ghost use Rattle.script_parser.specs.Clauses.{ReadsClause, ReadsClauses, clauses_of};

use crate::ending::{has_more, has_more_in_clause};
use crate::inner::Statements;
use crate::node::node;
use expression_parser::{Cursor, Inside, NotScript, ParseFault, many};
use js_core::{Case, Expr, Keyword, Punct, Stmt, StmtNode};
use js_grammar::Sign;

impl<I: Inside> Statements<I> {
    /// Reads the statements of a clause.
    fn clause_statements(&self, tokens: &mut Cursor) -> Result<Vec<Stmt>, ParseFault>
        ensures { ReadsAll (spec_many reader.has_more_in_clause
            (statement_in self.now.grammar.depth) tokens.old) result tokens.new }
    {
        many(
            self.grammar.alloc,
            tokens,
            |tokens| has_more_in_clause(tokens),
            |tokens| self.statement(tokens),
        )
    }

    /// Reads what stands behind `case`.
    #[tactic(auto, unfolding(js_grammar::specs::StatementReader::case))]
    fn case(&self, tokens: &mut Cursor) -> Result<Case, ParseFault>
        ensures { ReadsClause (reader.case limit (expression_in self.now.grammar.depth)
            (body_in self.now.grammar.depth) (statement_in self.now.grammar.depth) tokens.old)
            result tokens.new }
    {
        let test = self.expression(tokens)?;
        tokens.expect(Sign::Mark(Punct::Colon))?;
        let body = self.clause_statements(tokens)?;
        Ok(Case {
            test: Some(test),
            body,
        })
    }

    /// Reads what stands behind `default`.
    #[tactic(auto, unfolding(js_grammar::specs::StatementReader::default))]
    fn default(&self, tokens: &mut Cursor) -> Result<Case, ParseFault>
        ensures { ReadsClause (reader.default limit (expression_in self.now.grammar.depth)
            (body_in self.now.grammar.depth) (statement_in self.now.grammar.depth) tokens.old)
            result tokens.new }
    {
        tokens.expect(Sign::Mark(Punct::Colon))?;
        let body = self.clause_statements(tokens)?;
        Ok(Case { test: None, body })
    }

    /// Reads a clause.
    #[tactic(auto, unfolding(js_grammar::specs::StatementReader::clause))]
    fn clause(&self, tokens: &mut Cursor) -> Result<Case, ParseFault>
        ensures { ReadsClause (reader.clause limit (expression_in self.now.grammar.depth)
            (body_in self.now.grammar.depth) (statement_in self.now.grammar.depth) tokens.old)
            result tokens.new }
    {
        match tokens.sign() {
            Some(Sign::Word(Keyword::Case)) => {
                tokens.skip();
                self.case(tokens)
            }
            Some(Sign::Word(Keyword::Default)) => {
                tokens.skip();
                self.default(tokens)
            }
            _ => Err(ParseFault::Cause(NotScript)),
        }
    }

    /// Reads the clauses before a `}` and the end.
    fn clauses(&self, tokens: &mut Cursor) -> Result<Vec<Case>, ParseFault>
        ensures { ReadsClauses (spec_many reader.has_more
            (reader.clause limit (expression_in self.now.grammar.depth)
            (body_in self.now.grammar.depth) (statement_in self.now.grammar.depth)) tokens.old)
            result tokens.new }
    {
        let mut found = Vec::new(self.grammar.alloc);
        for _turn in 0..tokens.left() {
            if !has_more(tokens) {
                return Ok(found);
            }
            found.push(self.clause(tokens)?)?;
        }
        Ok(found)
    }

    /// The statement with these clauses. `NotScript` where two of them are `default`.
    #[tactic(auto, unfolding(js_grammar::specs::StatementReader::switched), using(crate::proofs::Clauses::same_cases))]
    fn switched(
        &self,
        value: Expr,
        cases: Vec<Case>,
        tokens: &mut Cursor,
    ) -> Result<Stmt, ParseFault>
        ensures { Reads (reader.switched limit (expression_in self.now.grammar.depth)
            (body_in self.now.grammar.depth) (statement_in self.now.grammar.depth) value
            (clauses_of cases.items) tokens.old) result tokens.new }
    {
        if !has_one_default(cases.as_slice()) {
            return Err(ParseFault::Cause(NotScript));
        }
        node(
            StmtNode::Switch(Box::new(self.grammar.alloc, value)?, cases),
            tokens,
        )
    }

    /// Reads what stands behind `switch`.
    #[inline(never)]
    #[tactic(auto, unfolding(js_grammar::specs::StatementReader::switch))]
    pub fn switch(&self, tokens: &mut Cursor) -> Result<Stmt, ParseFault>
        ensures { Reads (reader.switch limit (expression_in self.now.grammar.depth)
            (body_in self.now.grammar.depth) (statement_in self.now.grammar.depth) tokens.old)
            result tokens.new }
    {
        let value = self.condition(tokens)?;
        tokens.expect(Sign::Mark(Punct::LeftBrace))?;
        let cases = self.clauses(tokens)?;
        tokens.expect(Sign::Mark(Punct::RightBrace))?;
        self.switched(value, cases, tokens)
    }
}

/// Whether no second clause is `default`.
fn has_one_default(cases: &[Case]) -> bool
    ensures { result ≡ spec.has_one_default (clauses_of cases.now) }
{
    let mut rest = cases;
    while let [case, after @ ..] = rest {
        match &case.test {
            None => return !has_default(after),
            Some(_) => rest = after,
        }
    }
    true
}

fn has_default(cases: &[Case]) -> bool
    ensures { result ≡ spec.has_default (clauses_of cases.now) }
{
    let mut rest = cases;
    while let [case, after @ ..] = rest {
        match &case.test {
            None => return true,
            Some(_) => rest = after,
        }
    }
    false
}

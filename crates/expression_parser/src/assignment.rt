//! Conditional expressions, assignments and commas (ECMA-262 5.1 sections 11.12 to 11.14).

ghost use Rattle.std.specs.Prelude.{true};
ghost use Rattle.js_grammar.specs.ExpressionReader as reader;
ghost use Rattle.js_grammar.specs.Parser.{separated};
ghost use Rattle.expression_parser.specs.Inside.{Joins, limit, expression_in, body_in};
ghost use Rattle.expression_parser.specs.Reads.{Reads, ReadsAll};

use crate::cursor::Cursor;
use crate::fault::ParseFault;
use crate::grammar::Grammar;
use crate::inside::Inside;
use crate::lists::{further, separated};
use crate::nodes;
use crate::operators::{assignment_of, prefix_of};
use js_core::{Expr, Punct};
use js_grammar::{Level, Sign};

/// The expression with these parts: the part, where it is the only one.
fn joined(mut parts: Vec<Expr>) -> Result<Expr, ParseFault>
    ensures { Joins parts.items result }
{
    if parts.len() == 1 {
        return Ok(parts.remove(0));
    }
    nodes::comma(parts)
}

impl<I: Inside> Grammar<I> {
    /// Reads an expression of this level.
    pub fn at_level(&self, inn: bool, level: Level, tokens: &mut Cursor) -> Result<Expr, ParseFault>
        ensures { Reads (reader.at_level limit (expression_in self.now.depth)
            (body_in self.now.depth) inn level tokens.old) result tokens.new }
    {
        match level {
            Level::Sequence => self.all(inn, tokens),
            Level::Assignment => self.one(inn, tokens),
            Level::Binary(least) => self.climb(inn, least, tokens),
            Level::Construction | Level::Member => self.left(false, tokens),
        }
    }

    /// Reads an expression, with commas.
    #[tactic(auto, unfolding(js_grammar::specs::ExpressionReader::all))]
    pub fn all(&self, inn: bool, tokens: &mut Cursor) -> Result<Expr, ParseFault>
        ensures { Reads (reader.all limit (expression_in self.now.depth)
            (body_in self.now.depth) inn tokens.old) result tokens.new }
    {
        let parts = self.items(inn, tokens)?;
        joined(parts)
    }

    /// Reads assignment expressions with commas between them.
    fn items(&self, inn: bool, tokens: &mut Cursor) -> Result<Vec<Expr>, ParseFault>
        ensures { ReadsAll (separated (reader.one limit (expression_in self.now.depth)
            (body_in self.now.depth) inn) tokens.old) result tokens.new }
    {
        separated(self.alloc, tokens, |tokens| self.one(inn, tokens))
    }

    /// Reads an expression of which the first assignment expression has been read.
    #[tactic(auto, unfolding(js_grammar::specs::ExpressionReader::all_from))]
    pub fn all_from(&self, inn: bool, first: Expr, tokens: &mut Cursor) -> Result<Expr, ParseFault>
        ensures { Reads (reader.all_from limit (expression_in self.now.depth)
            (body_in self.now.depth) inn first tokens.old) result tokens.new }
    {
        let parts = self.more_items(inn, first, tokens)?;
        joined(parts)
    }

    /// Reads the assignment expressions behind this one, each behind a comma.
    fn more_items(
        &self,
        inn: bool,
        first: Expr,
        tokens: &mut Cursor,
    ) -> Result<Vec<Expr>, ParseFault>
        ensures { ReadsAll (reader.more_items limit (expression_in self.now.depth)
            (body_in self.now.depth) inn first tokens.old) result tokens.new }
    {
        let mut found = Vec::new(self.alloc);
        found.push(first)?;
        further(tokens, found, |tokens| self.one(inn, tokens))
    }

    /// Reads an assignment expression.
    #[tactic(auto, unfolding(js_grammar::specs::ExpressionReader::one))]
    pub fn one(&self, inn: bool, tokens: &mut Cursor) -> Result<Expr, ParseFault>
        ensures { Reads (reader.one limit (expression_in self.now.depth)
            (body_in self.now.depth) inn tokens.old) result tokens.new }
    {
        match prefix_of(tokens.sign()) {
            Some(operator) => {
                tokens.skip();
                let first = self.operated(operator, tokens)?;
                self.rest(inn, first, tokens)
            }
            None => {
                let target = self.left(true, tokens)?;
                self.assigned(inn, target, tokens)
            }
        }
    }

    /// Reads an assignment expression that begins with this left-hand side.
    #[tactic(auto, unfolding(js_grammar::specs::ExpressionReader::assigned, js_grammar::specs::Parser::within_limit))]
    pub fn assigned(&self, inn: bool, target: Expr, tokens: &mut Cursor) -> Result<Expr, ParseFault>
        ensures { Reads (reader.assigned limit (expression_in self.now.depth)
            (body_in self.now.depth) inn target tokens.old) result tokens.new }
    {
        match assignment_of(tokens.sign()) {
            Some(operator) => {
                tokens.skip();
                let value = self.expression(inn, Level::Assignment, tokens)?;
                nodes::assign(self.alloc, operator, target, value)
            }
            None => {
                let first = self.postfix(target, tokens)?;
                self.rest(inn, first, tokens)
            }
        }
    }

    /// Reads an assignment expression that begins with this unary expression.
    #[tactic(auto, unfolding(js_grammar::specs::ExpressionReader::rest))]
    fn rest(&self, inn: bool, first: Expr, tokens: &mut Cursor) -> Result<Expr, ParseFault>
        ensures { Reads (reader.rest limit (expression_in self.now.depth)
            (body_in self.now.depth) inn first tokens.old) result tokens.new }
    {
        let test = self.operations(inn, 1, first, tokens)?;
        self.choice(inn, test, tokens)
    }

    /// Reads what may stand behind a binary expression: `?` and two choices.
    #[tactic(auto, unfolding(js_grammar::specs::ExpressionReader::choice, js_grammar::specs::Parser::within_limit))]
    fn choice(&self, inn: bool, test: Expr, tokens: &mut Cursor) -> Result<Expr, ParseFault>
        ensures { Reads (reader.choice limit (expression_in self.now.depth)
            (body_in self.now.depth) inn test tokens.old) result tokens.new }
    {
        if !tokens.eat(Sign::Mark(Punct::QuestionMark)) {
            return Ok(test);
        }
        let first = self.expression(true, Level::Assignment, tokens)?;
        tokens.expect(Sign::Mark(Punct::Colon))?;
        let second = self.expression(inn, Level::Assignment, tokens)?;
        nodes::conditional(self.alloc, test, first, second)
    }
}

//! Left-hand sides (ECMA-262 5.1 section 11.2): properties, calls and `new`.

ghost use Rattle.js_grammar.specs.ExpressionReader as reader;
ghost use Rattle.js_grammar.specs.Parser.{and_then};
ghost use Rattle.expression_parser.specs.Inside.{limit, expression_in, body_in};
ghost use Rattle.expression_parser.specs.Reads.{Reads, ReadsAll};

use crate::cursor::Cursor;
use crate::fault::{NotScript, ParseFault};
use crate::grammar::Grammar;
use crate::inside::Inside;
use crate::lists::listed;
use crate::nodes;
use crate::operators::is_suffix;
use js_core::{Expr, Keyword, Punct};
use js_grammar::{Level, Sign};

impl<I: Inside> Grammar<I> {
    /// Reads a left-hand side, with calls or without.
    #[tactic(auto, unfolding(js_grammar::specs::ExpressionReader::left))]
    pub fn left(&self, calls: bool, tokens: &mut Cursor) -> Result<Expr, ParseFault>
        ensures { Reads (reader.left limit (expression_in self.now.depth)
            (body_in self.now.depth) calls tokens.old) result tokens.new }
    {
        match tokens.sign() {
            Some(Sign::Word(Keyword::New)) => {
                tokens.skip();
                self.constructed(calls, tokens)
            }
            _ => self.extended(calls, tokens),
        }
    }

    /// Reads a primary expression and what goes on with it.
    fn extended(&self, calls: bool, tokens: &mut Cursor) -> Result<Expr, ParseFault>
        ensures { Reads (and_then (reader.primary limit (expression_in self.now.depth)
            (body_in self.now.depth) tokens.old)
            (reader.suffixes limit (expression_in self.now.depth) (body_in self.now.depth) calls))
            result tokens.new }
    {
        let first = self.primary(tokens)?;
        self.suffixes(calls, first, tokens)
    }

    /// Reads the arguments of a call and the parenthesis behind them.
    fn arguments(&self, tokens: &mut Cursor) -> Result<Vec<Expr>, ParseFault>
        ensures { ReadsAll (reader.arguments limit (expression_in self.now.depth)
            (body_in self.now.depth) tokens.old) result tokens.new }
    {
        listed(self.alloc, tokens, |tokens| {
            self.expression(true, Level::Assignment, tokens)
        })
    }

    /// Reads the name behind a point.
    #[tactic(auto, unfolding(js_grammar::specs::ExpressionReader::dotted, js_grammar::specs::Parser::within_limit))]
    fn dotted(&self, left: Expr, tokens: &mut Cursor) -> Result<Expr, ParseFault>
        ensures { Reads (reader.dotted limit (expression_in self.now.depth)
            (body_in self.now.depth) left tokens.old) result tokens.new }
    {
        let name = tokens.member_name()?;
        nodes::member(self.alloc, left, name)
    }

    /// Reads the expression behind an opening bracket, and the closing one.
    #[tactic(auto, unfolding(js_grammar::specs::ExpressionReader::indexed, js_grammar::specs::Parser::within_limit))]
    fn indexed(&self, left: Expr, tokens: &mut Cursor) -> Result<Expr, ParseFault>
        ensures { Reads (reader.indexed limit (expression_in self.now.depth)
            (body_in self.now.depth) left tokens.old) result tokens.new }
    {
        let name = self.expression(true, Level::Sequence, tokens)?;
        tokens.expect(Sign::Mark(Punct::RightBracket))?;
        nodes::index(self.alloc, left, name)
    }

    /// Reads the arguments of a call, behind the opening parenthesis.
    #[tactic(auto, unfolding(js_grammar::specs::ExpressionReader::called, js_grammar::specs::Parser::within_limit))]
    fn called(&self, left: Expr, tokens: &mut Cursor) -> Result<Expr, ParseFault>
        ensures { Reads (reader.called limit (expression_in self.now.depth)
            (body_in self.now.depth) left tokens.old) result tokens.new }
    {
        let found = self.arguments(tokens)?;
        nodes::call(self.alloc, left, found)
    }

    /// Reads one thing that goes on with a left-hand side.
    #[tactic(auto, unfolding(js_grammar::specs::ExpressionReader::suffix))]
    fn suffix(&self, left: Expr, tokens: &mut Cursor) -> Result<Expr, ParseFault>
        ensures { Reads (reader.suffix limit (expression_in self.now.depth)
            (body_in self.now.depth) left tokens.old) result tokens.new }
    {
        match tokens.sign() {
            Some(Sign::Mark(Punct::Dot)) => {
                tokens.skip();
                self.dotted(left, tokens)
            }
            Some(Sign::Mark(Punct::LeftBracket)) => {
                tokens.skip();
                self.indexed(left, tokens)
            }
            Some(Sign::Mark(Punct::LeftParenthesis)) => {
                tokens.skip();
                self.called(left, tokens)
            }
            _ => Err(ParseFault::Cause(NotScript)),
        }
    }

    /// Reads all that goes on with a left-hand side.
    pub(crate) fn suffixes(
        &self,
        calls: bool,
        mut left: Expr,
        tokens: &mut Cursor,
    ) -> Result<Expr, ParseFault>
        ensures { Reads (reader.suffixes limit (expression_in self.now.depth)
            (body_in self.now.depth) calls left tokens.old) result tokens.new }
    {
        for _turn in 0..tokens.left() {
            if !is_suffix(calls, tokens.sign()) {
                return Ok(left);
            }
            left = self.suffix(left, tokens)?;
        }
        Ok(left)
    }

    /// Reads what stands behind a `new`.
    #[tactic(auto, unfolding(js_grammar::specs::ExpressionReader::constructed, js_grammar::specs::Parser::within_limit))]
    fn constructed(&self, calls: bool, tokens: &mut Cursor) -> Result<Expr, ParseFault>
        ensures { Reads (reader.constructed limit (expression_in self.now.depth)
            (body_in self.now.depth) calls tokens.old) result tokens.new }
    {
        let callee = self.expression(true, Level::Construction, tokens)?;
        if !tokens.eat(Sign::Mark(Punct::LeftParenthesis)) {
            return nodes::construct(self.alloc, callee, Vec::new(self.alloc));
        }
        let found = self.arguments(tokens)?;
        let made = nodes::construct(self.alloc, callee, found)?;
        self.suffixes(calls, made, tokens)
    }
}

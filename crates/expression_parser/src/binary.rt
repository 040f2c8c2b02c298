//! Binary expressions (ECMA-262 5.1 sections 11.5 to 11.11), by how tightly their operators bind.

ghost use Rattle.std.specs.Prelude.{◌<◌};
ghost use Rattle.js_grammar.specs.ExpressionReader as reader;
ghost use Rattle.expression_parser.specs.Inside.{limit, expression_in, body_in};
ghost use Rattle.expression_parser.specs.Reads.{Reads};

use crate::cursor::Cursor;
use crate::fault::{NotScript, ParseFault};
use crate::grammar::Grammar;
use crate::inside::Inside;
use crate::nodes;
use crate::operators::{climbs, infix_of, level_of};
use js_core::Expr;
use js_grammar::Level;

impl<I: Inside> Grammar<I> {
    /// Reads a binary expression of this level or a tighter one.
    #[tactic(auto, unfolding(js_grammar::specs::ExpressionReader::climb))]
    pub fn climb(&self, inn: bool, least: u32, tokens: &mut Cursor) -> Result<Expr, ParseFault>
        ensures { Reads (reader.climb limit (expression_in self.now.depth)
            (body_in self.now.depth) inn least tokens.old) result tokens.new }
    {
        let first = self.unary(tokens)?;
        self.operations(inn, least, first, tokens)
    }

    /// Reads the operators of this level or a tighter one behind this expression, and their operands.
    pub fn operations(
        &self,
        inn: bool,
        least: u32,
        mut left: Expr,
        tokens: &mut Cursor,
    ) -> Result<Expr, ParseFault>
        ensures { Reads (reader.operations limit (expression_in self.now.depth)
            (body_in self.now.depth) inn least left tokens.old) result tokens.new }
    {
        for _turn in 0..tokens.left() {
            if !climbs(inn, least, tokens.sign()) {
                return Ok(left);
            }
            left = self.operation(inn, left, tokens)?;
        }
        Ok(left)
    }

    /// Reads an operator and its second operand.
    #[tactic(auto, unfolding(js_grammar::specs::ExpressionReader::operation, js_grammar::specs::Parser::within_limit))]
    fn operation(&self, inn: bool, left: Expr, tokens: &mut Cursor) -> Result<Expr, ParseFault>
        ensures { Reads (reader.operation limit (expression_in self.now.depth)
            (body_in self.now.depth) inn left tokens.old) result tokens.new }
    {
        match infix_of(inn, tokens.sign()) {
            Some(operator) => {
                tokens.skip();
                let level = Level::Binary(level_of(operator) + 1);
                let right = self.expression(inn, level, tokens)?;
                nodes::combined(self.alloc, operator, left, right)
            }
            None => Err(ParseFault::Cause(NotScript)),
        }
    }
}

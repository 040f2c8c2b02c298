//! Postfix and unary expressions (ECMA-262 5.1 sections 11.3 and 11.4).

ghost use Rattle.std.specs.Prelude.{true};
ghost use Rattle.js_grammar.specs.ExpressionReader as reader;
ghost use Rattle.js_grammar.specs.Parser.{and_then};
ghost use Rattle.expression_parser.specs.Inside.{limit, expression_in, body_in};
ghost use Rattle.expression_parser.specs.Reads.{Reads};

use crate::cursor::Cursor;
use crate::fault::ParseFault;
use crate::grammar::Grammar;
use crate::inside::Inside;
use crate::nodes;
use crate::operators::prefix_of;
use js_core::Expr;
use js_grammar::{Level, Prefix};

impl<I: Inside> Grammar<I> {
    /// Reads a unary expression.
    #[tactic(auto, unfolding(js_grammar::specs::ExpressionReader::unary))]
    pub fn unary(&self, tokens: &mut Cursor) -> Result<Expr, ParseFault>
        ensures { Reads (reader.unary limit (expression_in self.now.depth)
            (body_in self.now.depth) tokens.old) result tokens.new }
    {
        match prefix_of(tokens.sign()) {
            Some(operator) => {
                tokens.skip();
                self.operated(operator, tokens)
            }
            None => self.stepped(tokens),
        }
    }

    /// Reads a left-hand side and the step behind it, if one comes.
    fn stepped(&self, tokens: &mut Cursor) -> Result<Expr, ParseFault>
        ensures { Reads (and_then (reader.left limit (expression_in self.now.depth)
            (body_in self.now.depth) true tokens.old)
            (reader.postfix limit (expression_in self.now.depth) (body_in self.now.depth))) result
            tokens.new }
    {
        let target = self.left(true, tokens)?;
        self.postfix(target, tokens)
    }

    /// Reads the `++` or `--` behind this expression, if one comes in the same line.
    #[tactic(auto, unfolding(js_grammar::specs::ExpressionReader::postfix, js_grammar::specs::Parser::within_limit))]
    pub fn postfix(&self, target: Expr, tokens: &mut Cursor) -> Result<Expr, ParseFault>
        ensures { Reads (reader.postfix limit (expression_in self.now.depth)
            (body_in self.now.depth) target tokens.old) result tokens.new }
    {
        match tokens.step() {
            Some(up) => {
                tokens.skip();
                nodes::update(self.alloc, up, false, target)
            }
            None => Ok(target),
        }
    }

    /// Reads the operand of this operator.
    #[tactic(auto, unfolding(js_grammar::specs::ExpressionReader::operated, js_grammar::specs::Parser::within_limit))]
    pub fn operated(&self, operator: Prefix, tokens: &mut Cursor) -> Result<Expr, ParseFault>
        ensures { Reads (reader.operated limit (expression_in self.now.depth)
            (body_in self.now.depth) operator tokens.old) result tokens.new }
    {
        let operand = self.expression(true, Level::Binary(11), tokens)?;
        nodes::prefixed(self.alloc, operator, operand)
    }
}

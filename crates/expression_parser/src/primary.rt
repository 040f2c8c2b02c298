//! Primary expressions (ECMA-262 5.1 section 11.1) and function expressions (section 13).

ghost use Rattle.std.specs.Prelude.{Some};
ghost use Rattle.js_grammar.specs.ExpressionReader as reader;
ghost use Rattle.js_core.specs.declared.token.Punct.TheVariants.{RightBrace, RightBracket};
ghost use Rattle.js_grammar.specs.Parser.{many};
ghost use Rattle.js_grammar.specs.declared.sign.Sign.TheVariants.{Mark, Word};
ghost use Rattle.expression_parser.specs.Inside.{limit, expression_in, body_in};
ghost use Rattle.expression_parser.specs.Reads.{Reads, ReadsAll};

use crate::cursor::Cursor;
use crate::fault::ParseFault;
use crate::grammar::Grammar;
use crate::inside::Inside;
use crate::lists::{listed, many};
use crate::nodes;
use js_core::{Code, Expr, ExprNode, Keyword, Punct, Units};
use js_grammar::{Level, Sign};
use std::alloc::Global;

/// Reads the formals of a function and the parenthesis behind them.
fn formal_names(alloc: Global, tokens: &mut Cursor) -> Result<Vec<Units>, ParseFault>
    ensures { ReadsAll (reader.formal_names tokens.old) result tokens.new }
{
    listed(alloc, tokens, |tokens| tokens.identifier())
}

impl<I: Inside> Grammar<I> {
    /// Reads a primary expression.
    #[tactic(auto, unfolding(js_grammar::specs::ExpressionReader::primary))]
    pub fn primary(&self, tokens: &mut Cursor) -> Result<Expr, ParseFault>
        ensures { Reads (reader.primary limit (expression_in self.now.depth)
            (body_in self.now.depth) tokens.old) result tokens.new }
    {
        match tokens.sign() {
            Some(Sign::Word(word)) => self.primary_of_word(word, tokens),
            Some(Sign::Mark(mark)) => self.primary_of_mark(mark, tokens),
            None => tokens.atom(),
        }
    }

    /// Reads a primary expression where this word comes next.
    fn primary_of_word(&self, word: Keyword, tokens: &mut Cursor) -> Result<Expr, ParseFault>
        ensures { Reads (reader.primary_by limit (expression_in self.now.depth)
            (body_in self.now.depth) (Some (Word word)) tokens.old) result tokens.new }
    {
        match word {
            Keyword::This => {
                tokens.skip();
                Ok(Expr::new(ExprNode::This))
            }
            Keyword::Null => {
                tokens.skip();
                Ok(Expr::new(ExprNode::Null))
            }
            Keyword::True => {
                tokens.skip();
                Ok(Expr::new(ExprNode::Bool(true)))
            }
            Keyword::False => {
                tokens.skip();
                Ok(Expr::new(ExprNode::Bool(false)))
            }
            Keyword::Function => {
                tokens.skip();
                self.function(tokens)
            }
            _ => tokens.atom(),
        }
    }

    /// Reads a primary expression where this punctuator comes next.
    fn primary_of_mark(&self, mark: Punct, tokens: &mut Cursor) -> Result<Expr, ParseFault>
        ensures { Reads (reader.primary_by limit (expression_in self.now.depth)
            (body_in self.now.depth) (Some (Mark mark)) tokens.old) result tokens.new }
    {
        match mark {
            Punct::LeftBracket => {
                tokens.skip();
                self.array(tokens)
            }
            Punct::LeftBrace => {
                tokens.skip();
                self.object(tokens)
            }
            Punct::LeftParenthesis => {
                tokens.skip();
                self.group(tokens)
            }
            _ => tokens.atom(),
        }
    }

    /// Reads an element of an array literal, and the comma behind it, if one comes; `None` is an elision.
    #[tactic(auto, unfolding(js_grammar::specs::ExpressionReader::element))]
    fn element(&self, tokens: &mut Cursor) -> Result<Option<Expr>, ParseFault>
        ensures { Reads (reader.element limit (expression_in self.now.depth)
            (body_in self.now.depth) tokens.old) result tokens.new }
    {
        if tokens.sees(Sign::Mark(Punct::Comma)) {
            tokens.skip();
            return Ok(None);
        }
        let value = self.expression(true, Level::Assignment, tokens)?;
        tokens.divided(Sign::Mark(Punct::RightBracket))?;
        Ok(Some(value))
    }

    /// Reads the elements of an array literal.
    fn elements(&self, tokens: &mut Cursor) -> Result<Vec<Option<Expr>>, ParseFault>
        ensures { ReadsAll (many (reader.comes_before RightBracket)
            (reader.element limit (expression_in self.now.depth) (body_in self.now.depth))
            tokens.old) result tokens.new }
    {
        many(
            self.alloc,
            tokens,
            |tokens| !tokens.sees(Sign::Mark(Punct::RightBracket)),
            |tokens| self.element(tokens),
        )
    }

    /// Reads an array literal, behind its bracket.
    #[tactic(auto, unfolding(js_grammar::specs::ExpressionReader::array, js_grammar::specs::Parser::within_limit))]
    fn array(&self, tokens: &mut Cursor) -> Result<Expr, ParseFault>
        ensures { Reads (reader.array limit (expression_in self.now.depth)
            (body_in self.now.depth) tokens.old) result tokens.new }
    {
        let found = self.elements(tokens)?;
        tokens.expect(Sign::Mark(Punct::RightBracket))?;
        nodes::list(found)
    }

    /// Reads a property of an object literal, and the comma behind it, if one comes.
    #[tactic(auto, unfolding(js_grammar::specs::ExpressionReader::field))]
    fn field(&self, tokens: &mut Cursor) -> Result<(Units, Expr), ParseFault>
        ensures { Reads (reader.field limit (expression_in self.now.depth)
            (body_in self.now.depth) tokens.old) result tokens.new }
    {
        let name = tokens.field_name(self.alloc)?;
        tokens.expect(Sign::Mark(Punct::Colon))?;
        let value = self.expression(true, Level::Assignment, tokens)?;
        tokens.divided(Sign::Mark(Punct::RightBrace))?;
        Ok((name, value))
    }

    /// Reads the properties of an object literal.
    fn fields(&self, tokens: &mut Cursor) -> Result<Vec<(Units, Expr)>, ParseFault>
        ensures { ReadsAll (many (reader.comes_before RightBrace)
            (reader.field limit (expression_in self.now.depth) (body_in self.now.depth)) tokens.old)
            result tokens.new }
    {
        many(
            self.alloc,
            tokens,
            |tokens| !tokens.sees(Sign::Mark(Punct::RightBrace)),
            |tokens| self.field(tokens),
        )
    }

    /// Reads an object literal, behind its brace.
    #[tactic(auto, unfolding(js_grammar::specs::ExpressionReader::object, js_grammar::specs::Parser::within_limit))]
    fn object(&self, tokens: &mut Cursor) -> Result<Expr, ParseFault>
        ensures { Reads (reader.object limit (expression_in self.now.depth)
            (body_in self.now.depth) tokens.old) result tokens.new }
    {
        let found = self.fields(tokens)?;
        tokens.expect(Sign::Mark(Punct::RightBrace))?;
        nodes::literal(found)
    }

    /// Reads an expression and the parenthesis behind it.
    #[tactic(auto, unfolding(js_grammar::specs::ExpressionReader::group))]
    fn group(&self, tokens: &mut Cursor) -> Result<Expr, ParseFault>
        ensures { Reads (reader.group limit (expression_in self.now.depth)
            (body_in self.now.depth) tokens.old) result tokens.new }
    {
        let inner = self.expression(true, Level::Sequence, tokens)?;
        tokens.expect(Sign::Mark(Punct::RightParenthesis))?;
        Ok(inner)
    }

    /// Reads the formals and the body of the function with this name.
    #[tactic(auto, unfolding(js_grammar::specs::ExpressionReader::procedure))]
    pub fn procedure(&self, own: Option<Units>, tokens: &mut Cursor) -> Result<Code, ParseFault>
        ensures { Reads (reader.procedure limit (expression_in self.now.depth)
            (body_in self.now.depth) own tokens.old) result tokens.new }
    {
        tokens.expect(Sign::Mark(Punct::LeftParenthesis))?;
        let formals = formal_names(self.alloc, tokens)?;
        tokens.expect(Sign::Mark(Punct::LeftBrace))?;
        let found = self.body(tokens)?;
        tokens.expect(Sign::Mark(Punct::RightBrace))?;
        Ok(nodes::procedure(own, formals, found))
    }

    /// Reads a function expression, behind its `function`.
    #[tactic(auto, unfolding(js_grammar::specs::ExpressionReader::function, js_grammar::specs::Parser::within_limit))]
    fn function(&self, tokens: &mut Cursor) -> Result<Expr, ParseFault>
        ensures { Reads (reader.function limit (expression_in self.now.depth)
            (body_in self.now.depth) tokens.old) result tokens.new }
    {
        let own = tokens.maybe_identifier()?;
        let code = self.procedure(own, tokens)?;
        nodes::function(self.alloc, code)
    }
}

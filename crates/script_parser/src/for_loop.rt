//! `for` (ECMA-262 5.1 sections 12.6.3 and 12.6.4).

ghost use Rattle.std.specs.Prelude.{true, false};
ghost use Rattle.js_core.specs.Views.{init_of};
ghost use Rattle.js_grammar.specs.StatementReader as reader;
ghost use Rattle.expression_parser.specs.Inside.{limit, expression_in, body_in, statement_in};
ghost use Rattle.expression_parser.specs.Reads.{Reads};

use crate::inner::{Statements, body_of};
use crate::node::node;
use expression_parser::{Cursor, Inside, NotScript, ParseFault, prefix_of};
use js_core::{Declarator, Expr, ExprNode, For, ForInit, Keyword, Punct, Stmt, StmtNode};
use js_grammar::{Prefix, Sign};

impl<I: Inside> Statements<I> {
    /// Reads an expression, unless this punctuator comes.
    #[tactic(auto, unfolding(js_grammar::specs::StatementReader::maybe_before))]
    fn maybe_before(&self, close: Punct, tokens: &mut Cursor) -> Result<Option<Expr>, ParseFault>
        ensures { Reads (reader.maybe_before limit (expression_in self.now.grammar.depth)
            (body_in self.now.grammar.depth) (statement_in self.now.grammar.depth) close tokens.old)
            result tokens.new }
    {
        if tokens.sees(Sign::Mark(close)) {
            return Ok(None);
        }
        let value = self.expression(tokens)?;
        Ok(Some(value))
    }

    /// Reads a `for` from its first semicolon on.
    #[tactic(auto, unfolding(js_grammar::specs::StatementReader::for_loop))]
    fn for_loop(&self, init: ForInit, tokens: &mut Cursor) -> Result<Stmt, ParseFault>
        ensures { Reads (reader.for_loop limit (expression_in self.now.grammar.depth)
            (body_in self.now.grammar.depth) (statement_in self.now.grammar.depth)
            (init_of init) tokens.old) result tokens.new }
    {
        tokens.expect(Sign::Mark(Punct::Semicolon))?;
        let test = self.maybe_before(Punct::Semicolon, tokens)?;
        tokens.expect(Sign::Mark(Punct::Semicolon))?;
        let step = self.maybe_before(Punct::RightParenthesis, tokens)?;
        tokens.expect(Sign::Mark(Punct::RightParenthesis))?;
        let repeated = self.statement(tokens)?;
        let body = body_of(self.grammar.alloc, repeated)?;
        let parts = For {
            init,
            test,
            step,
            body,
        };
        node(StmtNode::For(Box::new(self.grammar.alloc, parts)?), tokens)
    }

    /// Reads a `for` from behind its `in`.
    #[tactic(auto, unfolding(js_grammar::specs::StatementReader::for_in))]
    fn for_in(&self, declared: bool, target: Expr, tokens: &mut Cursor) -> Result<Stmt, ParseFault>
        ensures { Reads (reader.for_in limit (expression_in self.now.grammar.depth)
            (body_in self.now.grammar.depth) (statement_in self.now.grammar.depth) declared target
            tokens.old) result tokens.new }
    {
        let object = self.expression(tokens)?;
        tokens.expect(Sign::Mark(Punct::RightParenthesis))?;
        let repeated = self.statement(tokens)?;
        let body = body_of(self.grammar.alloc, repeated)?;
        node(
            StmtNode::ForIn {
                declared,
                target: Box::new(self.grammar.alloc, target)?,
                object: Box::new(self.grammar.alloc, object)?,
                body,
            },
            tokens,
        )
    }

    /// Reads a `for` from behind its `in`, whose variable has this declaration. `NotScript` where it has an initialiser.
    fn for_in_by(&self, declarator: Declarator, tokens: &mut Cursor) -> Result<Stmt, ParseFault>
        ensures { Reads (reader.for_in_by limit (expression_in self.now.grammar.depth)
            (body_in self.now.grammar.depth) (statement_in self.now.grammar.depth) declarator.value
            declarator.name tokens.old) result tokens.new }
    {
        let (name, value) = declarator.into_parts();
        if value.is_some() {
            return Err(ParseFault::Cause(NotScript));
        }
        let target = Expr::new(ExprNode::Name(name));
        self.for_in(true, target, tokens)
    }

    /// The same behind a list of declarations, which has to be one.
    #[tactic(auto, using(crate::proofs::Lists::for_in_one, crate::proofs::Lists::for_in_several))]
    fn for_in_declared(
        &self,
        mut found: Vec<Declarator>,
        tokens: &mut Cursor,
    ) -> Result<Stmt, ParseFault>
        ensures { Reads (reader.for_in_declared limit (expression_in self.now.grammar.depth)
            (body_in self.now.grammar.depth) (statement_in self.now.grammar.depth) found.items
            tokens.old) result tokens.new }
    {
        let Some(declarator) = found.pop() else {
            return Err(ParseFault::Cause(NotScript));
        };
        if !found.is_empty() {
            return Err(ParseFault::Cause(NotScript));
        }
        self.for_in_by(declarator, tokens)
    }

    /// Reads a `for` from behind its `var`.
    #[inline(never)]
    #[tactic(auto, unfolding(js_grammar::specs::StatementReader::for_variables, js_grammar::specs::Parser::eat))]
    fn for_variables(&self, tokens: &mut Cursor) -> Result<Stmt, ParseFault>
        ensures { Reads (reader.for_variables limit (expression_in self.now.grammar.depth)
            (body_in self.now.grammar.depth) (statement_in self.now.grammar.depth) tokens.old)
            result tokens.new }
    {
        let found = self.declarations(false, tokens)?;
        if tokens.eat(Sign::Word(Keyword::In)) {
            return self.for_in_declared(found, tokens);
        }
        self.for_loop(ForInit::Var(found), tokens)
    }

    /// Reads a `for` from behind the left-hand side with which its header begins, or from behind the `in` after it.
    fn for_target_by(
        &self,
        target: Expr,
        is_in: bool,
        tokens: &mut Cursor,
    ) -> Result<Stmt, ParseFault>
        ensures { Reads (reader.for_target_by limit (expression_in self.now.grammar.depth)
            (body_in self.now.grammar.depth) (statement_in self.now.grammar.depth) target is_in
            tokens.old) result tokens.new }
    {
        if is_in {
            return self.for_in(false, target, tokens);
        }
        let first = self.grammar.assigned(false, target, tokens)?;
        let value = self.grammar.all_from(false, first, tokens)?;
        self.for_loop(ForInit::Expr(value), tokens)
    }

    /// Reads a `for` whose header begins with an expression, and that with this operator, if with any.
    #[inline(never)]
    #[tactic(auto, unfolding(js_grammar::specs::Parser::eat))]
    fn for_expression(
        &self,
        prefix: Option<Prefix>,
        tokens: &mut Cursor,
    ) -> Result<Stmt, ParseFault>
        ensures { Reads (reader.for_expression limit (expression_in self.now.grammar.depth)
            (body_in self.now.grammar.depth) (statement_in self.now.grammar.depth) prefix
            tokens.old) result tokens.new }
    {
        if prefix.is_some() {
            let value = self.grammar.all(false, tokens)?;
            return self.for_loop(ForInit::Expr(value), tokens);
        }
        let target = self.grammar.left(true, tokens)?;
        let is_in = tokens.eat(Sign::Word(Keyword::In));
        self.for_target_by(target, is_in, tokens)
    }

    /// Reads a `for` from behind its parenthesis, where this sign comes.
    fn for_by(&self, sign: Option<Sign>, tokens: &mut Cursor) -> Result<Stmt, ParseFault>
        ensures { Reads (reader.for_by limit (expression_in self.now.grammar.depth)
            (body_in self.now.grammar.depth) (statement_in self.now.grammar.depth) sign tokens.old)
            result tokens.new }
    {
        match sign {
            Some(Sign::Mark(Punct::Semicolon)) => self.for_loop(ForInit::Nothing, tokens),
            Some(Sign::Word(Keyword::Var)) => {
                tokens.skip();
                self.for_variables(tokens)
            }
            _ => self.for_expression(prefix_of(sign), tokens),
        }
    }

    /// Reads what stands behind `for`.
    #[tactic(auto, unfolding(js_grammar::specs::StatementReader::for_statement))]
    pub fn for_statement(&self, tokens: &mut Cursor) -> Result<Stmt, ParseFault>
        ensures { Reads (reader.for_statement limit (expression_in self.now.grammar.depth)
            (body_in self.now.grammar.depth) (statement_in self.now.grammar.depth) tokens.old)
            result tokens.new }
    {
        tokens.expect(Sign::Mark(Punct::LeftParenthesis))?;
        let sign = tokens.sign();
        self.for_by(sign, tokens)
    }
}

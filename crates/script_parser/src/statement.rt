//! Statements (ECMA-262 5.1 section 12) and source elements (section 14).

ghost use Rattle.std.specs.Prelude.{◌≡◌, Some};
ghost use Rattle.js_grammar.specs.declared.sign.Sign.TheVariants.{Word};
ghost use Rattle.js_grammar.specs.StatementReader as reader;
ghost use Rattle.expression_parser.specs.Inside.{limit, expression_in, body_in, statement_in};
ghost use Rattle.expression_parser.specs.Reads.{Reads};
ghost use Rattle.expression_parser.specs.Reads.{ReadsAll};
ghost use Rattle.script_parser.specs.Beginnings.{begins, statement_behind};

use crate::ending::has_more;
use crate::inner::Statements;
use crate::node::node;
use expression_parser::{Cursor, Inside, NotScript, ParseFault, many};
use js_core::{Keyword, Punct, Stmt, StmtNode};
use js_grammar::Sign;
use std::rc::Rc;

/// Whether a statement that begins with this word is no expression statement.
fn begins_statement(word: Keyword) -> bool
    ensures { result ≡ begins word }
{
    matches!(
        word,
        Keyword::Var
            | Keyword::If
            | Keyword::Do
            | Keyword::While
            | Keyword::For
            | Keyword::Continue
            | Keyword::Break
            | Keyword::Return
            | Keyword::Throw
            | Keyword::Try
            | Keyword::Switch
    )
}

impl<I: Inside> Statements<I> {
    /// Reads the rest of the statement that begins with this word. `NotScript` where none begins so.
    fn statement_behind(&self, word: Keyword, tokens: &mut Cursor) -> Result<Stmt, ParseFault>
        ensures { Reads (statement_behind limit (expression_in self.now.grammar.depth)
            (body_in self.now.grammar.depth) (statement_in self.now.grammar.depth) word tokens.old)
            result tokens.new }
    {
        match word {
            Keyword::Var => self.variables(tokens),
            Keyword::If => self.conditional(tokens),
            Keyword::Do => self.do_while(tokens),
            Keyword::While => self.while_loop(tokens),
            Keyword::For => self.for_statement(tokens),
            Keyword::Continue => self.ended_as(Stmt::new(StmtNode::Continue), tokens),
            Keyword::Break => self.ended_as(Stmt::new(StmtNode::Break), tokens),
            Keyword::Return => self.return_statement(tokens),
            Keyword::Throw => self.throw(tokens),
            Keyword::Try => self.tried(tokens),
            Keyword::Switch => self.switch(tokens),
            _ => Err(ParseFault::Cause(NotScript)),
        }
    }

    /// Reads a statement that begins with this word, which comes next.
    #[tactic(auto, using(crate::proofs::Beginnings::begun, crate::proofs::Beginnings::not_begun))]
    fn statement_by_word(&self, word: Keyword, tokens: &mut Cursor) -> Result<Stmt, ParseFault>
        ensures { Reads (reader.statement_by limit (expression_in self.now.grammar.depth)
            (body_in self.now.grammar.depth) (statement_in self.now.grammar.depth)
            (Some (Word word)) tokens.old) result tokens.new }
    {
        if begins_statement(word) {
            tokens.skip();
            return self.statement_behind(word, tokens);
        }
        if word == Keyword::Function {
            return Err(ParseFault::Cause(NotScript));
        }
        self.expressed(tokens)
    }

    /// Reads a statement that begins with this sign, which comes next.
    fn statement_by(&self, sign: Option<Sign>, tokens: &mut Cursor) -> Result<Stmt, ParseFault>
        ensures { Reads (reader.statement_by limit (expression_in self.now.grammar.depth)
            (body_in self.now.grammar.depth) (statement_in self.now.grammar.depth) sign tokens.old)
            result tokens.new }
    {
        match sign {
            Some(Sign::Word(word)) => self.statement_by_word(word, tokens),
            Some(Sign::Mark(Punct::LeftBrace)) => self.block(tokens),
            Some(Sign::Mark(Punct::Semicolon)) => {
                tokens.skip();
                Ok(Stmt::new(StmtNode::Empty))
            }
            _ => self.expressed(tokens),
        }
    }

    /// Reads a statement.
    #[tactic(auto, unfolding(js_grammar::specs::StatementReader::any_statement))]
    pub fn any_statement(&self, tokens: &mut Cursor) -> Result<Stmt, ParseFault>
        ensures { Reads (reader.any_statement limit (expression_in self.now.grammar.depth)
            (body_in self.now.grammar.depth) (statement_in self.now.grammar.depth) tokens.old)
            result tokens.new }
    {
        let sign = tokens.sign();
        self.statement_by(sign, tokens)
    }

    /// Reads what stands behind the `function` of a declaration.
    #[tactic(auto, unfolding(js_grammar::specs::StatementReader::function))]
    fn function(&self, tokens: &mut Cursor) -> Result<Stmt, ParseFault>
        ensures { Reads (reader.function limit (expression_in self.now.grammar.depth)
            (body_in self.now.grammar.depth) (statement_in self.now.grammar.depth) tokens.old)
            result tokens.new }
    {
        let name = tokens.identifier()?;
        let code = self.grammar.procedure(Some(name), tokens)?;
        let code = Rc::new(self.grammar.alloc, code)?;
        node(StmtNode::Function(code), tokens)
    }

    /// Reads a statement or a function declaration.
    #[tactic(auto, unfolding(js_grammar::specs::StatementReader::element))]
    fn element(&self, tokens: &mut Cursor) -> Result<Stmt, ParseFault>
        ensures { Reads (reader.element limit (expression_in self.now.grammar.depth)
            (body_in self.now.grammar.depth) (statement_in self.now.grammar.depth) tokens.old)
            result tokens.new }
    {
        match tokens.sign() {
            Some(Sign::Word(Keyword::Function)) => {
                tokens.skip();
                self.function(tokens)
            }
            _ => self.any_statement(tokens),
        }
    }

    /// Reads the source elements before a `}` and the end.
    pub fn elements(&self, tokens: &mut Cursor) -> Result<Vec<Stmt>, ParseFault>
        ensures { ReadsAll (reader.elements limit (expression_in self.now.grammar.depth)
            (body_in self.now.grammar.depth) (statement_in self.now.grammar.depth) tokens.old)
            result tokens.new }
    {
        many(
            self.grammar.alloc,
            tokens,
            |tokens| has_more(tokens),
            |tokens| self.element(tokens),
        )
    }
}

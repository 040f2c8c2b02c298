//! `try` (ECMA-262 5.1 section 12.14).

ghost use Rattle.std.specs.Prelude.{option_map};
ghost use Rattle.js_core.specs.Tree as tree;
ghost use Rattle.js_core.specs.Tree.{maybe_stmts, stmts_of};
ghost use Rattle.js_core.specs.Views.{catch_of};
ghost use Rattle.js_grammar.specs.StatementReader as reader;
ghost use Rattle.expression_parser.specs.Inside.{limit, expression_in, body_in, statement_in};
ghost use Rattle.expression_parser.specs.Reads.{Reads};

use crate::inner::Statements;
use crate::node::node;
use expression_parser::{Cursor, Inside, ParseFault};
use js_core::{Catch, Keyword, Punct, Stmt, StmtNode, Try};
use js_grammar::Sign;

impl<I: Inside> Statements<I> {
    // The `try` with these parts.
    fn handled(
        &self,
        block: Vec<Stmt>,
        catch: Option<Catch>,
        last: Option<Vec<Stmt>>,
        tokens: &Cursor,
    ) -> Result<Stmt, ParseFault>
        ensures { Reads (reader.node limit (tree.try (stmts_of block.items) (catch_of catch)
            (maybe_stmts (option_map (λ v. v.items) last))) tokens.now) result tokens.now }
    {
        let parts = Try { block, catch, last };
        node(StmtNode::Try(Box::new(self.grammar.alloc, parts)?), tokens)
    }

    /// Reads what stands behind `finally`.
    #[tactic(auto, unfolding(js_grammar::specs::StatementReader::finally))]
    fn finally(
        &self,
        block: Vec<Stmt>,
        catch: Option<Catch>,
        tokens: &mut Cursor,
    ) -> Result<Stmt, ParseFault>
        ensures { Reads (reader.finally limit (expression_in self.now.grammar.depth)
            (body_in self.now.grammar.depth) (statement_in self.now.grammar.depth) block.items
            (catch_of catch) tokens.old) result tokens.new }
    {
        let last = self.braced(tokens)?;
        self.handled(block, catch, Some(last), tokens)
    }

    /// Reads what stands behind `catch`.
    #[tactic(auto, unfolding(js_grammar::specs::StatementReader::caught, js_grammar::specs::Parser::eat))]
    fn caught(&self, block: Vec<Stmt>, tokens: &mut Cursor) -> Result<Stmt, ParseFault>
        ensures { Reads (reader.caught limit (expression_in self.now.grammar.depth)
            (body_in self.now.grammar.depth) (statement_in self.now.grammar.depth) block.items
            tokens.old) result tokens.new }
    {
        tokens.expect(Sign::Mark(Punct::LeftParenthesis))?;
        let name = tokens.identifier()?;
        tokens.expect(Sign::Mark(Punct::RightParenthesis))?;
        let body = self.braced(tokens)?;
        let catch = Some(Catch { name, body });
        if tokens.eat(Sign::Word(Keyword::Finally)) {
            return self.finally(block, catch, tokens);
        }
        self.handled(block, catch, None, tokens)
    }

    /// Reads what stands behind `try`.
    #[tactic(auto, unfolding(js_grammar::specs::StatementReader::tried, js_grammar::specs::Parser::eat))]
    pub fn tried(&self, tokens: &mut Cursor) -> Result<Stmt, ParseFault>
        ensures { Reads (reader.tried limit (expression_in self.now.grammar.depth)
            (body_in self.now.grammar.depth) (statement_in self.now.grammar.depth) tokens.old)
            result tokens.new }
    {
        let block = self.braced(tokens)?;
        if tokens.eat(Sign::Word(Keyword::Catch)) {
            return self.caught(block, tokens);
        }
        tokens.expect(Sign::Word(Keyword::Finally))?;
        self.finally(block, None, tokens)
    }
}

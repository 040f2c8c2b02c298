//! Expressions that begin with a group (ECMA-262 5.1 section 11.1.6).

ghost use Rattle.expression_parser.specs.Groups.{closing};
ghost use Rattle.expression_parser.specs.Reads.{Reads};

use crate::cursor::Cursor;
use crate::fault::ParseFault;
use crate::grammar::Grammar;
use crate::inside::Inside;
use js_core::{Expr, Punct};
use js_grammar::Sign;

impl<I: Inside> Grammar<I> {
    /// Reads the closing parenthesis of a group with this inside, and the rest of the expression, with commas, that the
    /// group begins.
    #[tactic(auto, unfolding(crate::specs::Groups::closing, js_grammar::specs::ExpressionReader::closing))]
    pub fn closed(&self, inner: Expr, tokens: &mut Cursor) -> Result<Expr, ParseFault>
        ensures { Reads (closing self.now.depth inner tokens.old) result tokens.new }
    {
        tokens.expect(Sign::Mark(Punct::RightParenthesis))?;
        let target = self.suffixes(true, inner, tokens)?;
        let first = self.assigned(true, target, tokens)?;
        self.all_from(true, first, tokens)
    }
}

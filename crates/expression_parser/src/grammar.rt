//! The readers of expressions.

ghost use Rattle.std.specs.Prelude.{◌≡◌};
ghost use Rattle.expression_parser.specs.Inside.{expression_in, body_in};
ghost use Rattle.expression_parser.specs.Reads.{Reads, ReadsAll};

use crate::cursor::Cursor;
use crate::depth::Depth;
use crate::fault::ParseFault;
use crate::inside::Inside;
use crate::nesting::Nesting;
use js_core::{Expr, Stmt};
use js_grammar::Level;
use std::alloc::Global;

/// What reads the phrases of ECMA-262 5.1 section 11, a method for each. Each goes behind what it reads, and answers
/// `NotScript` where the grammar has no such phrase of a height up to the limit; after an error it stands anywhere in
/// between.
#[derive(Drop)]
pub struct Grammar<I: Inside> {
    /// Where trees are kept.
    pub alloc: Global,
    /// How deep parts inside may nest, and what reads them.
    pub depth: Depth<I>,
}

impl<I: Inside> Grammar<I> {
    /// The grammar of phrases whose parts nest less deep than `depth`; `inside` reads them.
    pub fn new(alloc: Global, depth: Nesting, inside: I) -> Grammar<I>
        requires { I.nests inside depth }
        ensures { result.depth ≡ depth }
    {
        Grammar {
            alloc,
            depth: Depth::new(depth, inside),
        }
    }

    /// Reads an expression inside.
    pub fn expression(
        &self,
        inn: bool,
        level: Level,
        tokens: &mut Cursor,
    ) -> Result<Expr, ParseFault>
        ensures { Reads (expression_in self.now.depth inn level tokens.old) result tokens.new }
    {
        self.depth.expression(self.alloc, inn, level, tokens)
    }

    /// Reads what stands between the braces of a function.
    pub fn body(&self, tokens: &mut Cursor) -> Result<Vec<Stmt>, ParseFault>
        ensures { ReadsAll (body_in self.now.depth tokens.old) result tokens.new }
    {
        self.depth.body(self.alloc, tokens)
    }
}

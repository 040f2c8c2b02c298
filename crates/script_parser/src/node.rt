//! Statements that are not too high.

ghost use Rattle.js_core.specs.Views.{stmt_of};
ghost use Rattle.js_grammar.specs.StatementReader as reader;
ghost use Rattle.expression_parser.specs.Inside.{limit};
ghost use Rattle.expression_parser.specs.Reads.{Reads};

use expression_parser::{Cursor, ParseFault, check_height};
use js_core::{Stmt, StmtNode};

/// The statement with this node, at a place in the tokens. `NotScript` where it is too high.
#[tactic(auto, unfolding(js_grammar::specs::Parser::within_limit))]
pub fn node(node: StmtNode, tokens: &Cursor) -> Result<Stmt, ParseFault>
    ensures { Reads (reader.node limit (stmt_of node) tokens.now) result tokens.now }
{
    check_height(node.height())?;
    Ok(Stmt::new(node))
}

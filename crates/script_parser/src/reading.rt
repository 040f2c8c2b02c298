//! Whole scripts (ECMA-262 5.1 section 14).

ghost use Rattle.std.specs.Prelude.{◌≡◌, ◌<◌, ◌≤◌, true, false, IfOk};
ghost use Rattle.js_core.specs.Memory.{IfCause};
ghost use Rattle.js_core.specs.Tree as tree;
ghost use Rattle.js_grammar.specs.Parser.{sees};
ghost use Rattle.js_grammar.specs.ScriptReader.{read_script};
ghost use Rattle.js_grammar.specs.Scripts.{Derives, ScriptOf, height_limit};
ghost use Rattle.expression_parser.specs.Inside.{expression_in, body_in, statement_in};
ghost use Rattle.expression_parser.specs.Nestings.{in_groups};
ghost use Rattle.expression_parser.specs.Reads.{Reads, ReadsAll, Gives};
ghost use Rattle.script_parser.specs.Groups.{finished, has_room, may_open};
ghost use Rattle.script_parser.specs.Whole.{GivesBody};

use crate::functions::Functions;
use crate::phrase::{any_statement, elements};
use expression_parser::{
    Cursor, Nesting, NotScript, ParseFault, closed_group, expression_at_level, sequence,
};
use js_core::{Expr, HEIGHT_LIMIT, Punct, Script, Stmt, Token};
use js_grammar::{Level, Sign, law_one_script, law_reading_is_the_grammar};
use std::alloc::Global;

/// The script of these tokens (ECMA-262 5.1 annex A.3 to A.5, by the grammar of `js_grammar`), which is no higher than 440:
/// their one tree. `NotScript` exactly where they have none. The tokens go as they are read. The time is linear in the number of
/// statements. It takes a bounded part of the machine's stack, however deep the tokens nest.
pub fn script(alloc: Global, tokens: Vec<Token>) -> Result<Script, ParseFault>
    // The answer is that of the reader.
    ensures reads { Gives (read_script height_limit tokens.items) result }
    // A script that is given is a script of the tokens,
    ensures sound { IfOk result (λ script. ScriptOf height_limit tokens.items script) }
    // and the only one, of whatever height.
    ensures only { IfOk result (λ script. (other : tree.Stmts) → Derives tokens.items other → other
        ≡ script) }
    // Tokens that are refused have no script.
    ensures refused { IfCause result (λ _. (script : tree.Stmts)
        → ScriptOf height_limit tokens.items script → ⊥) }
{
    law_reading_is_the_grammar();
    law_one_script();
    let body = read(alloc, tokens)?;
    Ok(Script { body })
}

/// How deep the parts of a script that is not too high nest, but for groups with which expressions begin: a part is lower than
/// what it stands in, but for the inside of a group and the block that is the body of another statement.
const ROOM: usize = 2 * HEIGHT_LIMIT as usize + 2;

fn read(alloc: Global, tokens: Vec<Token>) -> Result<Vec<Stmt>, ParseFault>
    ensures { GivesBody (read_script height_limit tokens.items) result }
{
    // Each part inside another begins behind a token of it, so that all nesting ends before the count does.
    let depth = Nesting {
        room: ROOM,
        all: tokens.len() + 1,
    };
    let mut cursor = Cursor::new(tokens);
    let body = body_inside(alloc, depth, &mut cursor)?;
    if cursor.left() > 0 {
        return Err(ParseFault::Cause(NotScript));
    }
    Ok(body)
}

/// Whether any part may nest.
fn has_room(depth: Nesting) -> bool
    ensures { result ≡ has_room depth }
{
    depth.room > 0 && depth.all > 0
}

/// Whether groups with which an expression of this level begins are opened by a loop.
fn may_open(level: Level, inn: bool) -> bool
    ensures { result ≡ may_open level inn }
{
    inn && matches!(level, Level::Sequence)
}

/// Reads an expression, where parts nest less deep than `depth`.
#[cycle(inside)]
fn expression_inside(
    alloc: Global,
    depth: Nesting,
    inn: bool,
    level: Level,
    tokens: &mut Cursor,
) -> Result<Expr, ParseFault>
    ensures { Reads (expression_in depth inn level tokens.old) result tokens.new }
{
    if !has_room(depth) {
        return Err(ParseFault::Cause(NotScript));
    }
    if may_open(level, inn) {
        return sequence_inside(alloc, depth, tokens);
    }
    expression_at_level(
        alloc,
        depth.inside(),
        Functions {
            expression: expression_inside,
            body: body_inside,
            statement: statement_inside,
        },
        inn,
        level,
        tokens,
    )
}

/// Reads an expression with commas, where parts nest less deep than `depth`. The groups with which it begins are opened
/// before their inside is read, and closed behind it.
#[cycle(inside)]
fn sequence_inside(alloc: Global, depth: Nesting, tokens: &mut Cursor) -> Result<Expr, ParseFault>
    requires { 0 < depth.room }
    ensures { Reads (expression_in depth true Level.Sequence tokens.old) result tokens.new }
{
    let opened = open_groups(depth, tokens);
    if opened == depth.all {
        return Err(ParseFault::Cause(NotScript));
    }
    let mut inner = innermost_inside(alloc, depth.in_groups(opened), tokens)?;
    for closed in 0..opened {
        inner = closed_group(
            alloc,
            depth.in_groups(opened - closed - 1).inside(),
            Functions {
                expression: expression_inside,
                body: body_inside,
                statement: statement_inside,
            },
            inner,
            tokens,
        )?;
    }
    Ok(inner)
}

/// Goes behind the parentheses of the groups with which an expression begins, as far as parts may nest, and tells how many
/// these are.
fn open_groups(depth: Nesting, tokens: &mut Cursor) -> usize
    requires { 0 < depth.room }
    ensures inside { expression_in depth true Level.Sequence tokens.old
        ≡ finished depth result
        (expression_in (in_groups depth result) true Level.Sequence tokens.new) }
    ensures few { result ≤ depth.all }
    ensures each { result < depth.all → sees
        (Sign.Mark Punct.LeftParenthesis) tokens.new ≡ false }
{
    for opened in 0..depth.all {
        if !tokens.sees(Sign::Mark(Punct::LeftParenthesis)) {
            return opened;
        }
        tokens.skip();
    }
    depth.all
}

/// Reads an expression with commas that begins with no group, where parts nest less deep than `depth`.
#[cycle(inside)]
fn innermost_inside(alloc: Global, depth: Nesting, tokens: &mut Cursor) -> Result<Expr, ParseFault>
    requires room { 0 < depth.room }
    requires all { 0 < depth.all }
    requires begun { sees (Sign.Mark Punct.LeftParenthesis) tokens.old ≡ false }
    ensures { Reads (expression_in depth true Level.Sequence tokens.old) result tokens.new }
{
    sequence(
        alloc,
        depth.inside(),
        Functions {
            expression: expression_inside,
            body: body_inside,
            statement: statement_inside,
        },
        tokens,
    )
}

/// Reads what stands between the braces of a function, where parts nest less deep than `depth`.
#[cycle(inside)]
fn body_inside(alloc: Global, depth: Nesting, tokens: &mut Cursor) -> Result<Vec<Stmt>, ParseFault>
    ensures { ReadsAll (body_in depth tokens.old) result tokens.new }
{
    if !has_room(depth) {
        return Err(ParseFault::Cause(NotScript));
    }
    elements(
        alloc,
        depth.inside(),
        Functions {
            expression: expression_inside,
            body: body_inside,
            statement: statement_inside,
        },
        tokens,
    )
}

/// Reads a statement, where parts nest less deep than `depth`.
#[cycle(inside)]
fn statement_inside(alloc: Global, depth: Nesting, tokens: &mut Cursor) -> Result<Stmt, ParseFault>
    ensures { Reads (statement_in depth tokens.old) result tokens.new }
{
    if !has_room(depth) {
        return Err(ParseFault::Cause(NotScript));
    }
    any_statement(
        alloc,
        depth.inside(),
        Functions {
            expression: expression_inside,
            body: body_inside,
            statement: statement_inside,
        },
        tokens,
    )
}

//! Where a statement ends, and where one more begins (ECMA-262 5.1 section 7.9).

ghost use Rattle.std.specs.Prelude.{◌≡◌};
ghost use Rattle.js_grammar.specs.Endings as spec;
ghost use Rattle.js_grammar.specs.StatementReader as reader;
ghost use Rattle.expression_parser.specs.Reads.{Reads};

use expression_parser::{Cursor, NotScript, ParseFault};
use js_core::{Declarator, Keyword, Punct};
use js_grammar::{Ending, Sign, is_right_brace};

/// How an expression that was read to its end goes on: it has taken each `(`, `[` and point already.
pub const READ_EXPRESSION: Ending = Ending::AfterExpression(false);

/// Takes a semicolon, unless it may be missing here. `NotScript` where it may not.
#[tactic(auto, unfolding(js_grammar::specs::StatementReader::ended))]
pub fn ended(tokens: &mut Cursor, ending: Ending) -> Result<(), ParseFault>
    ensures { Reads (reader.ended ending tokens.old) result tokens.new }
{
    if tokens.sees(Sign::Mark(Punct::Semicolon)) {
        tokens.skip();
        return Ok(());
    }
    if may_end(tokens, ending) {
        Ok(())
    } else {
        Err(ParseFault::Cause(NotScript))
    }
}

/// Whether a semicolon may be missing here.
#[tactic(auto, using(crate::proofs::Ends::may_end_at_end, crate::proofs::Ends::may_end_before))]
pub fn may_end(tokens: &Cursor, ending: Ending) -> bool
    ensures { result ≡ spec.may_end ending tokens.now }
{
    match tokens.after_line() {
        None => true,
        Some(after_line) => ending.ends_before(tokens.sign(), after_line),
    }
}

/// How a list of declarators ends: behind the last name, or behind its initialiser.
#[tactic(auto, using(crate::proofs::Ends::ending_of_last))]
pub fn ending_of(found: &[Declarator]) -> Ending
    ensures { result ≡ reader.ending_of found.now }
{
    match found.split_last() {
        Some((last, _)) => ending_by(last),
        None => Ending::AfterName,
    }
}

fn ending_by(last: &Declarator) -> Ending
    ensures { result ≡ reader.ending_by last.now.value }
{
    match &last.value {
        Some(_) => READ_EXPRESSION,
        None => Ending::AfterName,
    }
}

/// Whether there is one more statement before a `}` and the end.
#[tactic(auto, using(crate::proofs::Ends::has_more_at_end, crate::proofs::Ends::has_more_before))]
pub fn has_more(tokens: &Cursor) -> bool
    ensures { result ≡ reader.has_more tokens.now }
{
    match tokens.after_line() {
        None => false,
        Some(_) => !is_right_brace(tokens.sign()),
    }
}

/// Whether there is one more statement of this clause of a `switch`.
pub fn has_more_in_clause(tokens: &Cursor) -> bool
    ensures { result ≡ reader.has_more_in_clause tokens.now }
{
    has_more(tokens) && !begins_clause(tokens.sign())
}

fn begins_clause(sign: Option<Sign>) -> bool
    ensures { result ≡ reader.begins_clause sign }
{
    matches!(sign, Some(Sign::Word(Keyword::Case | Keyword::Default)))
}

/// Whether no operand may follow a `return`.
pub fn returns(tokens: &Cursor) -> bool
    ensures { result ≡ reader.returns tokens.now }
{
    tokens.sees(Sign::Mark(Punct::Semicolon)) || may_end(tokens, Ending::AfterAll)
}

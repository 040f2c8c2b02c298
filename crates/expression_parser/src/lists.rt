//! Lists of items: what repeats.

ghost use Rattle.std.specs.Prelude.{◌≡◌, Bool, List, length};
ghost use Rattle.js_grammar.specs.Parser as parser;
ghost use Rattle.js_grammar.specs.Parser.{Parser};
ghost use Rattle.js_grammar.specs.Symbols.{Lexeme};
ghost use Rattle.expression_parser.specs.Reads.{ReadsAll, ReadsItems, Tests};

use crate::cursor::Cursor;
use crate::fault::ParseFault;
use js_core::Punct;
use js_grammar::Sign;
use std::alloc::Global;

/// Items, as long as the symbols ask for more.
pub fn many<T: Drop, G: Fn(&Cursor) -> bool, F: Fn(&mut Cursor) -> Result<T, ParseFault>>(
    alloc: Global,
    tokens: &mut Cursor,
    goes_on: G,
    item: F,
) -> Result<Vec<T>, ParseFault>
    requires tests { G.IsAlwaysCallable goes_on }
    requires reads { F.IsAlwaysCallable item }
    ensures { (asks : List Lexeme → Bool) → (reader : Parser T) → Tests asks (G.post goes_on)
        → ReadsItems reader (F.post item) → ReadsAll
        (parser.many asks reader tokens.old) result tokens.new }
{
    let mut found = Vec::new(alloc);
    for _turn in 0..tokens.left() {
        if !goes_on(tokens) {
            return Ok(fitted(found));
        }
        found.push(item(tokens)?)?;
    }
    Ok(fitted(found))
}

// The same items, without room for more, since a tree keeps the room of its lists.
fn fitted<T: Drop>(mut found: Vec<T>) -> Vec<T>
    ensures { result.items ≡ found.items }
{
    found.shrink_to_fit();
    found
}

/// The items behind these ones, each behind a comma.
pub fn further<T: Drop, F: Fn(&mut Cursor) -> Result<T, ParseFault>>(
    tokens: &mut Cursor,
    mut found: Vec<T>,
    item: F,
) -> Result<Vec<T>, ParseFault>
    requires { F.IsAlwaysCallable item }
    ensures { (reader : Parser T) → ReadsItems reader (F.post item)
        → ReadsAll (parser.repeat parser.sees_comma (parser.added_behind_comma reader)
        (length tokens.old) found.items tokens.old) result tokens.new }
{
    for _turn in 0..tokens.left() {
        if !tokens.sees(Sign::Mark(Punct::Comma)) {
            return Ok(fitted(found));
        }
        tokens.skip();
        found.push(item(tokens)?)?;
    }
    Ok(fitted(found))
}

/// One item or more, with commas between them.
pub fn separated<T: Drop, F: Fn(&mut Cursor) -> Result<T, ParseFault>>(
    alloc: Global,
    tokens: &mut Cursor,
    item: F,
) -> Result<Vec<T>, ParseFault>
    requires { F.IsAlwaysCallable item }
    ensures { (reader : Parser T) → ReadsItems reader (F.post item)
        → ReadsAll (parser.separated reader tokens.old) result tokens.new }
{
    // Most have one item.
    let mut found = Vec::with_capacity(alloc, 1)?;
    found.push(item(tokens)?)?;
    further(tokens, found, item)
}

/// Items with commas between them, and the closing parenthesis.
pub fn listed<T: Drop, F: Fn(&mut Cursor) -> Result<T, ParseFault>>(
    alloc: Global,
    tokens: &mut Cursor,
    item: F,
) -> Result<Vec<T>, ParseFault>
    requires { F.IsAlwaysCallable item }
    ensures { (reader : Parser T) → ReadsItems reader (F.post item)
        → ReadsAll (parser.listed reader tokens.old) result tokens.new }
{
    if tokens.eat(Sign::Mark(Punct::RightParenthesis)) {
        return Ok(Vec::new(alloc));
    }
    let found = separated(alloc, tokens, item)?;
    tokens.expect(Sign::Mark(Punct::RightParenthesis))?;
    Ok(found)
}

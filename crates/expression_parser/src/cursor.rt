//! A place in a list of tokens, and the steps that reading is made of.

ghost use Rattle.std.specs.Prelude.{◌≡◌, List, length, Some, None};
ghost use Rattle.std.specs.Option.{option_copied};
ghost use Rattle.js_core.specs.declared.token.Token.{Token as PureToken};
ghost use Rattle.js_grammar.specs.Endings.{same_line};
ghost use Rattle.js_grammar.specs.ExpressionReader as reader;
ghost use Rattle.js_grammar.specs.Operators as operators;
ghost use Rattle.js_grammar.specs.Parser as parser;
ghost use Rattle.js_grammar.specs.Symbols.{lexemes, symbol_of, member_name, field_name, number_text as spec_number_text, sign_of, sign_at, is_sign};
ghost use Rattle.expression_parser.specs.Reads.{Reads, Gives, after_line};
ghost use Rattle.expression_parser.specs.Upcoming.{upcoming};

use crate::fault::{NotScript, ParseFault};
use itoa::Buffer;
use js_core::{
    Expr, ExprNode, Punct, Token, TokenKind, Units, Whole, ascii_text, is_unused_word, keyword_of,
};
use js_grammar::Sign;
use std::alloc::Global;
use std::marker::Model;

/// The tokens that are still to be read. A contract sees their lexemes: the terminal symbols of the grammar, each with
/// whether a line end stands before it. What was read goes, so that a tree grows where its tokens were.
#[derive(Drop)]
pub struct Cursor {
    next: Option<Token>,
    /// The tokens behind the next one, the last of all first.
    behind: Vec<Token>,
    /// The sign that comes next, so that each word is looked up once.
    sign: Option<Sign>,
}

impl Model for Cursor {
    ghost use Rattle.std.specs.Prelude.{◌≡◌, List};
    ghost use Rattle.js_grammar.specs.Symbols.{Lexeme, lexemes, sign_at};
    ghost use Rattle.expression_parser.specs.Upcoming.{upcoming};

    ghost Value = { List Lexeme };

    ghost view = { λ c. lexemes (upcoming c.next c.behind.items) };

    ghost invariant = { λ c. c.sign ≡ sign_at (lexemes (upcoming c.next c.behind.items)) };
}

impl Cursor {
    /// The place before the first of these tokens.
    pub fn new(tokens: Vec<Token>) -> Cursor
        ensures { result ≡ lexemes tokens.items }
    {
        let mut behind = tokens;
        behind.reverse();
        let next = behind.pop();
        let sign = sign_of_next(&next);
        Cursor { next, behind, sign }
    }

    /// How many tokens are left.
    pub fn left(&self) -> usize
        ensures { result ≡ length self.now }
    {
        match &self.next {
            Some(_) => self.behind.len() + 1,
            None => 0,
        }
    }

    /// The sign that comes next, where one does.
    pub fn sign(&self) -> Option<Sign>
        ensures { result ≡ sign_at self.now }
    {
        self.sign
    }

    /// Whether this sign comes next.
    #[tactic(auto, unfolding(js_grammar::specs::Parser::sees))]
    pub fn sees(&self, sign: Sign) -> bool
        ensures { result ≡ parser.sees sign self.now }
    {
        is_sign(sign, self.sign)
    }

    /// Goes behind the next token, if there is one.
    pub fn skip(&mut self)
        ensures { self.new ≡ parser.tail self.old }
    {
        if self.next.is_some() {
            self.next = self.behind.pop();
            self.sign = sign_of_next(&self.next);
            give_back(&mut self.behind);
        }
    }

    /// Takes this sign. `NotScript` where another symbol comes, or none.
    #[tactic(auto, unfolding(js_grammar::specs::Parser::expect))]
    pub fn expect(&mut self, sign: Sign) -> Result<(), ParseFault>
        ensures { Reads (parser.expect sign self.old) result self.new }
    {
        if !self.sees(sign) {
            return Err(ParseFault::Cause(NotScript));
        }
        self.skip();
        Ok(())
    }

    /// Whether this sign came next, which is then behind.
    #[tactic(auto, unfolding(js_grammar::specs::Parser::eat))]
    pub fn eat(&mut self, sign: Sign) -> bool
        ensures { parser.eat sign self.old ≡ Some (result, self.new) }
    {
        let sees = self.sees(sign);
        if sees {
            self.skip();
        }
        sees
    }

    /// Takes a comma, or sees this sign, which is left. `NotScript` where neither comes.
    #[tactic(auto, unfolding(js_grammar::specs::Parser::divided))]
    pub fn divided(&mut self, close: Sign) -> Result<(), ParseFault>
        ensures { Reads (parser.divided close self.old) result self.new }
    {
        if self.sees(Sign::Mark(Punct::Comma)) {
            self.skip();
            return Ok(());
        }
        if self.sees(close) {
            Ok(())
        } else {
            Err(ParseFault::Cause(NotScript))
        }
    }

    /// Takes an identifier. `NotScript` where none comes.
    #[tactic(auto, unfolding(js_grammar::specs::Parser::taken))]
    pub fn identifier(&mut self) -> Result<Units, ParseFault>
        ensures { Reads (parser.taken reader.identifier_of self.old) result self.new }
    {
        let name = match &self.next {
            Some(token) => identifier_in(&token.what, self.sign),
            None => None,
        };
        match name {
            Some(name) => {
                let name = name.clone()?;
                self.skip();
                Ok(name)
            }
            None => Err(ParseFault::Cause(NotScript)),
        }
    }

    /// Takes an identifier, if one comes next.
    #[tactic(auto, unfolding(js_grammar::specs::ExpressionReader::maybe_identifier))]
    pub fn maybe_identifier(&mut self) -> Result<Option<Units>, ParseFault>
        ensures { Reads (reader.maybe_identifier self.old) result self.new }
    {
        let name = match &self.next {
            Some(token) => identifier_in(&token.what, self.sign),
            None => None,
        };
        match name {
            Some(name) => {
                let name = name.clone()?;
                self.skip();
                Ok(Some(name))
            }
            None => Ok(None),
        }
    }

    /// Takes the name that stands behind a point: any word. `NotScript` where none comes.
    #[tactic(auto, unfolding(js_grammar::specs::Parser::taken))]
    pub fn member_name(&mut self) -> Result<Units, ParseFault>
        ensures { Reads (parser.taken member_name self.old) result self.new }
    {
        let name = match &self.next {
            Some(token) => member_name_in(&token.what),
            None => None,
        };
        match name {
            Some(name) => {
                let name = name.clone()?;
                self.skip();
                Ok(name)
            }
            None => Err(ParseFault::Cause(NotScript)),
        }
    }

    /// Takes a name of an object literal: a word, a text, or a number, which stands for its text. `NotScript` where none
    /// comes.
    #[tactic(auto, unfolding(js_grammar::specs::Parser::taken))]
    pub fn field_name(&mut self, alloc: Global) -> Result<Units, ParseFault>
        ensures { Reads (parser.taken field_name self.old) result self.new }
    {
        match &self.next {
            Some(token) => {
                let name = field_name_in(alloc, &token.what)?;
                self.skip();
                Ok(name)
            }
            None => Err(ParseFault::Cause(NotScript)),
        }
    }

    /// Takes an identifier, a number or a text as an expression. `NotScript` where none comes.
    #[tactic(auto, unfolding(js_grammar::specs::Parser::taken))]
    pub fn atom(&mut self) -> Result<Expr, ParseFault>
        ensures { Reads (parser.taken reader.atom_of self.old) result self.new }
    {
        match &self.next {
            Some(token) => {
                let atom = atom_in(&token.what, self.sign)?;
                self.skip();
                Ok(atom)
            }
            None => Err(ParseFault::Cause(NotScript)),
        }
    }

    /// The `++` (`true`) or `--` (`false`) that comes next in the same line.
    pub fn step(&self) -> Option<bool>
        ensures { result ≡ reader.step_at self.now }
    {
        match &self.next {
            Some(token) => in_line(step_of(self.sign), token.after_line),
            None => None,
        }
    }

    /// Whether a symbol comes next, and no line end before it.
    pub fn same_line(&self) -> bool
        ensures { result ≡ same_line self.now }
    {
        match &self.next {
            Some(token) => !token.after_line,
            None => false,
        }
    }

    /// Whether a line end stands before what comes next, where something does.
    pub fn after_line(&self) -> Option<bool>
        ensures { result ≡ after_line self.now }
    {
        match &self.next {
            Some(token) => Some(token.after_line),
            None => None,
        }
    }
}

fn is_sign(sign: Sign, next: Option<Sign>) -> bool
    ensures { result ≡ is_sign sign next }
{
    match next {
        Some(next) => next == sign,
        None => false,
    }
}

fn sign_of_next(next: &Option<Token>) -> Option<Sign>
    ensures { (behind : List PureToken) → result ≡ sign_at (lexemes (upcoming next.now behind)) }
{
    match next {
        Some(token) => sign_in(&token.what),
        None => None,
    }
}

/// Gives back the room of the tokens that were read, an eighth at a time.
fn give_back(behind: &mut Vec<Token>)
    ensures { behind.new.items ≡ behind.old.items }
{
    let capacity = behind.capacity();
    if behind.len() < capacity - capacity / 8 {
        behind.shrink_to_fit();
    }
}

/// The sign that the token is, if it is one.
fn sign_in(kind: &TokenKind) -> Option<Sign>
    ensures { result ≡ sign_of (symbol_of kind.now) }
{
    match kind {
        TokenKind::Word(word) => match keyword_of(word) {
            Some(keyword) => Some(Sign::Word(keyword)),
            None => None,
        },
        TokenKind::Punct(mark) => Some(Sign::Mark(*mark)),
        TokenKind::Number(_) | TokenKind::Text(_) => None,
    }
}

/// The identifier that the token with this sign is, if it is one.
#[tactic(auto, using(crate::proofs::Words::identifier_of_word, crate::proofs::Words::identifier_of_sign))]
fn identifier_in<'a>(kind: &'a TokenKind, sign: Option<Sign>) -> Option<&'a Units>
    requires { sign ≡ sign_of (symbol_of kind.now) }
    ensures { option_copied result ≡ reader.identifier_of (symbol_of kind.now) }
{
    if sign.is_some() {
        return None;
    }
    match kind {
        TokenKind::Word(word) => {
            if is_unused_word(word) {
                None
            } else {
                Some(word)
            }
        }
        _ => None,
    }
}

/// What stands behind a point.
#[tactic(auto, using(crate::proofs::Words::member_of_word))]
fn member_name_in<'a>(kind: &'a TokenKind) -> Option<&'a Units>
    ensures { option_copied result ≡ member_name (symbol_of kind.now) }
{
    match kind {
        TokenKind::Word(word) => Some(word),
        _ => None,
    }
}

/// The name of an object literal that the token is.
#[tactic(auto, using(crate::proofs::Words::field_of_word))]
fn field_name_in(alloc: Global, kind: &TokenKind) -> Result<Units, ParseFault>
    ensures { Gives (field_name (symbol_of kind.now)) result }
{
    match kind {
        TokenKind::Word(word) => Ok(word.clone()?),
        TokenKind::Text(text) => Ok(text.clone()?),
        TokenKind::Number(number) => number_text(alloc, *number),
        TokenKind::Punct(_) => Err(ParseFault::Cause(NotScript)),
    }
}

/// The text of a number (section 9.8.1).
fn number_text(alloc: Global, number: Whole) -> Result<Units, ParseFault>
    ensures { Gives (Some (spec_number_text number)) result }
{
    match number.get() {
        None => Ok(ascii_text(alloc, b"NaN")?),
        Some(n) => Ok(ascii_text(alloc, Buffer::new().format(n).as_bytes())?),
    }
}

/// The expression that the token with this sign is on its own.
fn atom_in(kind: &TokenKind, sign: Option<Sign>) -> Result<Expr, ParseFault>
    requires { sign ≡ sign_of (symbol_of kind.now) }
    ensures { Gives (reader.atom_of (symbol_of kind.now)) result }
{
    let node = match kind {
        TokenKind::Number(number) => ExprNode::Num(*number),
        TokenKind::Text(text) => ExprNode::Text(text.clone()?),
        _ => match identifier_in(kind, sign) {
            Some(name) => ExprNode::Name(name.clone()?),
            None => return Err(ParseFault::Cause(NotScript)),
        },
    };
    Ok(Expr::new(node))
}

/// Whether the sign is `++` (`true`) or `--` (`false`).
fn step_of(sign: Option<Sign>) -> Option<bool>
    ensures { result ≡ operators.step_of sign }
{
    match sign {
        Some(Sign::Mark(Punct::PlusPlus)) => Some(true),
        Some(Sign::Mark(Punct::MinusMinus)) => Some(false),
        _ => None,
    }
}

/// The step, unless a line end stands before it.
fn in_line(step: Option<bool>, after_line: bool) -> Option<bool>
    ensures { result ≡ reader.in_line step after_line }
{
    match step {
        Some(up) => { if after_line { None } else { Some(up) } }
        None => None,
    }
}

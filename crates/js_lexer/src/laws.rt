//! What holds of the tokens of texts.

ghost use Rattle.std.specs.Prelude.{◌≡◌, ◌+◌, ◌++◌, ◌≤◌, [], ℕ, List, length};
ghost use Rattle.js_core.specs.declared.token.Token.{Token as PureToken};
ghost use Rattle.js_core.specs.declared.token.TokenKind.{TokenKind as PureKind};
ghost use Rattle.js_lexer.specs.Tokens.{TokenAt, Tokens};

/// No text has two lists of tokens.
pub fn law_one_reading()
    ensures { (text : List ℕ) (left right : List PureToken) → Tokens text left → Tokens text right
        → left ≡ right }
{}

/// A token that is read is the longest that stands there: no longer front of the text is a token by itself.
pub fn law_tokens_are_longest()
    ensures { (text rest front behind : List ℕ) (what other : PureKind) → TokenAt text rest what
        → text ≡ front ++ behind → TokenAt front [] other
        → length front + length rest ≤ length text }
{}

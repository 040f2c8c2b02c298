//! What holds of all texts and their tokens.

ghost use Rattle.std.specs.Prelude.{◌≡◌, ℕ, List};
ghost use Rattle.page_tokens.specs.declared.token.PageToken.{PageToken as PureToken};
ghost use Rattle.page_tokens.specs.Laws.{StaysAt};
ghost use Rattle.page_tokens.specs.Tokens.{TokenAt, Tokens};

/// No text has two lists of tokens.
pub fn law_one_reading()
    ensures { (text : List ℕ) (left right : List PureToken) → Tokens text left → Tokens text right
        → left ≡ right }
{}

/// What stands behind a token does not change it, wherever it stands: text goes on to the first `<`, and all else ends by itself.
pub fn law_tokens_stay()
    ensures { (size : ℕ) (text rest : List ℕ) (token : PureToken) → TokenAt size text rest token
        → StaysAt size text rest token }
{}

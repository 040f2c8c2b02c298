//! The tokens of a script's text, as a table has them.

use crate::pages::{push_line, units_of};
use js_core::{Token, TokenKind};
use js_lexer::{LexFault, NotTokens, strict, tokens};
use std::alloc::{AllocError, Global};

/// The tokens, each behind a space: `^` where a line end stands before it, its span, and what it is, a number behind `#` and a text in
/// quotation marks; `strict` before them where the text is strict, and `not tokens` where it has none.
pub fn reading(alloc: Global, text: &str) -> Result<Vec<u8>, AllocError> {
    let mut out = Vec::new(alloc);
    match tokens(alloc, &units_of(alloc, text)?) {
        Ok(found) => {
            if strict(found.as_slice()) {
                out.extend_from_slice(b"strict")?;
            }
            for token in &found {
                push_token(alloc, token, &mut out)?;
            }
        }
        Err(LexFault::Cause(NotTokens)) => out.extend_from_slice(b"not tokens")?,
        Err(LexFault::OutOfMemory) => return Err(AllocError),
    }
    Ok(out)
}

fn push_token(alloc: Global, token: &Token, out: &mut Vec<u8>) -> Result<(), AllocError> {
    out.extend_from_slice(if token.after_line { b" ^" } else { b" " })?;
    let start = token.start;
    let end = token.end;
    out.extend_from_slice(format!(in alloc; "{start}-{end} ")?.as_bytes())?;
    match &token.what {
        TokenKind::Word(word) => push_line(alloc, word.as_slice(), out),
        TokenKind::Number(number) => push_number(alloc, number.get(), out),
        TokenKind::Text(text) => {
            out.extend_from_slice(b"'")?;
            push_line(alloc, text.as_slice(), out)?;
            out.extend_from_slice(b"'")
        }
        TokenKind::Punct(punct) => out.extend_from_slice(punct.text()),
    }
}

fn push_number(alloc: Global, number: Option<i64>, out: &mut Vec<u8>) -> Result<(), AllocError> {
    match number {
        Some(value) => out.extend_from_slice(format!(in alloc; "#{value}")?.as_bytes()),
        None => out.extend_from_slice(b"#NaN"),
    }
}

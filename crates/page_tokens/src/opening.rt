//! What a text opens with.

ghost use Rattle.std.specs.Prelude.{◌≡◌};
ghost use Rattle.page_tokens.specs.Tags as spec;

use crate::characters::{is_front, is_front_in_any_case, is_letter};

/// What a text opens with, by its units up to the first that tells it.
#[derive(Clone, Copy, PartialEq, Eq)]
pub enum Opening {
    /// A unit other than `<`.
    Characters,
    /// `<` and a letter.
    StartTag,
    /// `</`.
    EndTag,
    /// `<!--`.
    Comment,
    /// `<!doctype`.
    Doctype,
    /// None of these.
    Nothing,
}

/// What the text opens with.
#[tactic(auto, unfolding(crate::specs::Tags::opening_of))]
pub fn opening_of(text: &[u16]) -> Opening
    ensures { result ≡ spec.opening_of text.now }
{
    match text {
        [] => Opening::Nothing,
        [unit, behind @ ..] if *unit == u16::from(b'<') => markup(behind),
        _ => Opening::Characters,
    }
}

fn markup(text: &[u16]) -> Opening
    ensures { result ≡ spec.markup text.now }
{
    let [unit, behind @ ..] = text else {
        return Opening::Nothing;
    };
    if is_letter(*unit) {
        Opening::StartTag
    } else if *unit == u16::from(b'/') {
        Opening::EndTag
    } else if *unit == u16::from(b'!') {
        declaration(behind)
    } else {
        Opening::Nothing
    }
}

fn declaration(text: &[u16]) -> Opening
    ensures { result ≡ spec.declaration text.now }
{
    if is_front(b"--", text) {
        Opening::Comment
    } else if is_front_in_any_case(b"doctype", text) {
        Opening::Doctype
    } else {
        Opening::Nothing
    }
}

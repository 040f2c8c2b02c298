//! What begins with `<`.

ghost use Rattle.std.specs.Prelude.{◌≡◌, ◌+◌, ◌<◌, ◌≤◌, length, IfSome, MatchOption, None, Some, drop};
ghost use Rattle.page_tokens.specs.Characters.{begins_with, place_of};
ghost use Rattle.page_tokens.specs.Tags as spec;

use crate::characters::{
    behind_space, is_front, is_letter, is_name_front, is_space, len_before, name_len, without,
};
use js_core::Units;

/// What stands behind a doctype, from what stands behind `<!doctype`.
pub fn doctype(text: &[u16]) -> Option<&[u16]>
    ensures read { MatchOption result (spec.doctype_of text.now ≡ None)
        (λ rest. spec.doctype_of text.now ≡ Some rest.now) }
    ensures within { IfSome result (λ rest. length rest.now ≤ length text.now) }
{
    match &text[len_before(u16::from(b'>'), text)..] {
        [] => None,
        [_, rest @ ..] => Some(rest),
    }
}

/// The text of a comment and what stands behind it, from what stands behind `<!--`.
pub fn comment(text: &[u16]) -> Option<(&[u16], &[u16])>
    ensures read { MatchOption result (spec.comment_of text.now ≡ None)
        (λ split. spec.comment_of text.now ≡ Some (split.0.now, split.1.now)) }
    ensures within { IfSome result (λ split. length split.1.now ≤ length text.now) }
{
    let (inner, close) = text.split_at(comment_len(text));
    match close {
        [] => None,
        [_, behind @ ..] => Some((inner, without(2, behind))),
    }
}

/// How many units stand before the first `-->`.
fn comment_len(text: &[u16]) -> usize
    ensures read { result ≡ place_of spec.closes_comment text.now }
    ensures within { result ≤ length text.now }
{
    let mut rest = text;
    while let [_, behind @ ..] = rest {
        if is_front(b"-->", rest) {
            break;
        }
        rest = behind;
    }
    text.len() - rest.len()
}

/// Whether `/` stands before the `>` with which a start tag ends, and what stands behind that.
#[tactic(auto, unfolding(crate::specs::Tags::tag_end))]
pub fn tag_end(text: &[u16]) -> Option<(bool, &[u16])>
    ensures read { MatchOption result (spec.tag_end text.now ≡ None)
        (λ split. spec.tag_end text.now ≡ Some (split.0, split.1.now)) }
    ensures within { IfSome result (λ split. length split.1.now ≤ length text.now) }
{
    tag_close(behind_space(text))
}

fn tag_close(text: &[u16]) -> Option<(bool, &[u16])>
    ensures read { MatchOption result (spec.tag_close text.now ≡ None)
        (λ split. spec.tag_close text.now ≡ Some (split.0, split.1.now)) }
    ensures within { IfSome result (λ split. length split.1.now ≤ length text.now) }
{
    let [unit, behind @ ..] = text else {
        return None;
    };
    if *unit == u16::from(b'>') {
        return Some((false, behind));
    }
    if *unit == u16::from(b'/') {
        return slash_close(behind);
    }
    None
}

fn slash_close(text: &[u16]) -> Option<(bool, &[u16])>
    ensures read { MatchOption result (spec.slash_close text.now ≡ None)
        (λ split. spec.slash_close text.now ≡ Some (split.0, split.1.now)) }
    ensures within { IfSome result (λ split. length split.1.now ≤ length text.now) }
{
    match text {
        [unit, behind @ ..] if *unit == u16::from(b'>') => Some((true, behind)),
        _ => None,
    }
}

/// The name of an end tag and what stands behind it, from what stands behind `</`.
#[tactic(auto, unfolding(crate::specs::Tags::end_tag_of))]
pub fn end_tag(text: &[u16]) -> Option<(&[u16], &[u16])>
    ensures read { MatchOption result (spec.end_tag_of text.now ≡ None)
        (λ split. spec.end_tag_of text.now ≡ Some (split.0.now, split.1.now)) }
    ensures within { IfSome result (λ split. length split.1.now ≤ length text.now) }
{
    match text {
        [unit, ..] if is_letter(*unit) => {
            let (name, behind) = text.split_at(name_len(text));
            let rest = behind_close(behind)?;
            Some((name, rest))
        }
        _ => None,
    }
}

/// What stands behind white space and `>`.
fn behind_close(text: &[u16]) -> Option<&[u16]>
    ensures read { MatchOption result (spec.behind_close text.now ≡ None)
        (λ rest. spec.behind_close text.now ≡ Some rest.now) }
    ensures within { IfSome result (λ rest. length rest.now ≤ length text.now) }
{
    match behind_space(text) {
        [unit, behind @ ..] if *unit == u16::from(b'>') => Some(behind),
        _ => None,
    }
}

/// Whether an element with the name has raw text.
pub fn has_raw_text(name: &Units) -> bool
    ensures { result ≡ spec.has_raw_text name.now }
{
    name.spells(b"script") || name.spells(b"style")
}

/// The raw text of an element with the name, and what stands behind its end tag.
#[tactic(auto, unfolding(crate::specs::Tags::raw_text_of))]
pub fn raw_text<'a>(name: &[u16], text: &'a [u16]) -> Option<(&'a [u16], &'a [u16])>
    ensures read { MatchOption result (spec.raw_text_of name.now text.now ≡ None)
        (λ split. spec.raw_text_of name.now text.now ≡ Some (split.0.now, split.1.now)) }
    ensures within { IfSome result
        (λ split. length split.0.now + length split.1.now ≤ length text.now) }
{
    let (inner, end) = text.split_at(raw_text_len(name, text));
    let rest = behind_close(without(2 + name.len(), end))?;
    Some((inner, rest))
}

/// How many units stand before the end tag of an element with raw text.
fn raw_text_len(name: &[u16], text: &[u16]) -> usize
    ensures read { result ≡ place_of (spec.ends_raw_text name.now) text.now }
    ensures within { result ≤ length text.now }
{
    let mut rest = text;
    while let [_, behind @ ..] = rest {
        if ends_raw_text(name, rest) {
            break;
        }
        rest = behind;
    }
    text.len() - rest.len()
}

fn ends_raw_text(name: &[u16], text: &[u16]) -> bool
    ensures { result ≡ spec.ends_raw_text name.now text.now }
{
    is_front(b"</", text)
        && is_name_front(name, without(2, text))
        && ends_name(without(2 + name.len(), text))
}

/// Whether the text begins with white space, `/` or `>`.
fn ends_name(text: &[u16]) -> bool
    ensures { result ≡ begins_with spec.ends_name text.now }
{
    match text {
        [] => false,
        [unit, ..] => is_space(*unit) || *unit == u16::from(b'/') || *unit == u16::from(b'>'),
    }
}

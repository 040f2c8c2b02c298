//! The tokens of a page's text.

ghost use Rattle.std.specs.Prelude.{◌≡◌, ◌+◌, ◌<◌, ◌≤◌, ℕ, List, length, IfOk};
ghost use Rattle.js_core.specs.Memory.{IfCause};
ghost use Rattle.page_tokens.specs.declared.opening.Opening.TheVariants as opens;
ghost use Rattle.page_tokens.specs.declared.token.PageToken.{PageToken as PureToken};
ghost use Rattle.page_tokens.specs.declared.token.Tag.{Tag as PureTag};
ghost use Rattle.page_tokens.specs.Tags.{opening_of as opening_spec};
ghost use Rattle.page_tokens.specs.Tokens.{StartTagAt, TokenAt, Tokens, begins_raw_text};

use crate::attributes::{attributes, folded};
use crate::characters::{is_blank, len_before, name_len, without};
use crate::fault::{NotTokens, TokenFault};
use crate::opening::{Opening, opening_of};
use crate::references::decoded;
use crate::tags::{comment, doctype, end_tag, has_raw_text, raw_text, tag_end};
use crate::token::{PageToken, RawText, Tag};
use js_core::Units;
use std::alloc::Global;

/// `<`.
const LESS_THAN: u16 = 0x3c;

/// The tokens of a page's text, in order. `NotTokens` where the text has no such reading. The time is linear in the text.
#[tactic(auto, using(crate::proofs::AllTokens::tokens_refused))]
pub fn tokens_of(alloc: Global, text: &[u16]) -> Result<Vec<PageToken>, TokenFault>
    ensures read { IfOk result (λ tokens. Tokens text.now tokens.items) }
    ensures refused { IfCause result (λ _. (tokens : List PureToken)
        → Tokens text.now tokens → ⊥) }
{
    let mut tokens = Vec::new(alloc);
    let mut rest = text;
    while !rest.is_empty() {
        let (token, behind) = token(alloc, text.len(), rest)?;
        tokens.push(token)?;
        rest = behind;
    }
    Ok(tokens)
}

/// The token with which the last part of a text of so many units begins, and what stands behind it.
fn token(alloc: Global, size: usize, text: &[u16]) -> Result<(PageToken, &[u16]), TokenFault>
    requires some { 0 < length text.now }
    requires part { length text.now ≤ size }
    ensures read { IfOk result (λ split. TokenAt size text.now split.1.now split.0) }
    ensures shorter { IfOk result (λ split. length split.1.now < length text.now) }
    ensures refused { IfCause result (λ _. (rest : List ℕ) (token : PureToken)
        → TokenAt size text.now rest token → ⊥) }
{
    match opening_of(text) {
        Opening::Characters => text_token(alloc, size, text),
        Opening::StartTag => element_token(alloc, size, text),
        Opening::EndTag => end_tag_token(alloc, size, text),
        Opening::Comment => comment_token(alloc, size, text),
        Opening::Doctype => doctype_token(size, text),
        Opening::Nothing => Err(TokenFault::Cause(NotTokens)),
    }
}

#[tactic(auto, using(crate::proofs::OneToken::text_refused))]
fn text_token(alloc: Global, size: usize, text: &[u16]) -> Result<(PageToken, &[u16]), TokenFault>
    requires some { 0 < length text.now }
    requires part { length text.now ≤ size }
    requires opens { opening_spec text.now ≡ opens.Characters }
    ensures read { IfOk result (λ split. TokenAt size text.now split.1.now split.0) }
    ensures shorter { IfOk result (λ split. length split.1.now < length text.now) }
    ensures refused { IfCause result (λ _. (rest : List ℕ) (token : PureToken)
        → TokenAt size text.now rest token → ⊥) }
{
    let (run, behind) = text.split_at(len_before(LESS_THAN, text));
    if is_blank(run) {
        return Ok((PageToken::Space(Units::of(alloc, run)?), behind));
    }
    Ok((PageToken::Text(decoded(alloc, run)?), behind))
}

fn doctype_token(size: usize, text: &[u16]) -> Result<(PageToken, &[u16]), TokenFault>
    requires some { 0 < length text.now }
    requires part { length text.now ≤ size }
    requires opens { opening_spec text.now ≡ opens.Doctype }
    ensures read { IfOk result (λ split. TokenAt size text.now split.1.now split.0) }
    ensures shorter { IfOk result (λ split. length split.1.now < length text.now) }
    ensures refused { IfCause result (λ _. (rest : List ℕ) (token : PureToken)
        → TokenAt size text.now rest token → ⊥) }
{
    match doctype(without(9, text)) {
        Some(behind) => Ok((PageToken::Doctype, behind)),
        None => Err(TokenFault::Cause(NotTokens)),
    }
}

fn comment_token(
    alloc: Global,
    size: usize,
    text: &[u16],
) -> Result<(PageToken, &[u16]), TokenFault>
    requires some { 0 < length text.now }
    requires part { length text.now ≤ size }
    requires opens { opening_spec text.now ≡ opens.Comment }
    ensures read { IfOk result (λ split. TokenAt size text.now split.1.now split.0) }
    ensures shorter { IfOk result (λ split. length split.1.now < length text.now) }
    ensures refused { IfCause result (λ _. (rest : List ℕ) (token : PureToken)
        → TokenAt size text.now rest token → ⊥) }
{
    match comment(without(4, text)) {
        Some((inner, behind)) => Ok((PageToken::Comment(Units::of(alloc, inner)?), behind)),
        None => Err(TokenFault::Cause(NotTokens)),
    }
}

fn end_tag_token(
    alloc: Global,
    size: usize,
    text: &[u16],
) -> Result<(PageToken, &[u16]), TokenFault>
    requires some { 0 < length text.now }
    requires part { length text.now ≤ size }
    requires opens { opening_spec text.now ≡ opens.EndTag }
    ensures read { IfOk result (λ split. TokenAt size text.now split.1.now split.0) }
    ensures shorter { IfOk result (λ split. length split.1.now < length text.now) }
    ensures refused { IfCause result (λ _. (rest : List ℕ) (token : PureToken)
        → TokenAt size text.now rest token → ⊥) }
{
    match end_tag(without(2, text)) {
        Some((name, behind)) => Ok((PageToken::EndTag(folded(alloc, name)?), behind)),
        None => Err(TokenFault::Cause(NotTokens)),
    }
}

#[tactic(auto, using(crate::proofs::OneToken::element_refused))]
fn element_token(
    alloc: Global,
    size: usize,
    text: &[u16],
) -> Result<(PageToken, &[u16]), TokenFault>
    requires some { 0 < length text.now }
    requires part { length text.now ≤ size }
    requires opens { opening_spec text.now ≡ opens.StartTag }
    ensures read { IfOk result (λ split. TokenAt size text.now split.1.now split.0) }
    ensures shorter { IfOk result (λ split. length split.1.now < length text.now) }
    ensures refused { IfCause result (λ _. (rest : List ℕ) (token : PureToken)
        → TokenAt size text.now rest token → ⊥) }
{
    let (tag, behind) = start_tag(alloc, text)?;
    if !begins_raw_text(&tag) {
        return Ok((PageToken::StartTag(tag), behind));
    }
    let Some((inner, rest)) = raw_text(tag.name.as_slice(), behind) else {
        return Err(TokenFault::Cause(NotTokens));
    };
    let start = (size - behind.len()) as u64;
    let text = Units::of(alloc, inner)?;
    let end = start + inner.len() as u64;
    Ok((PageToken::Raw(tag, RawText { text, start, end }), rest))
}

/// Whether raw text follows the start tag.
fn begins_raw_text(tag: &Tag) -> bool
    ensures { result ≡ begins_raw_text tag.now }
{
    !tag.closed && has_raw_text(&tag.name)
}

/// The start tag with which the text begins, and what stands behind it.
fn start_tag(alloc: Global, text: &[u16]) -> Result<(Tag, &[u16]), TokenFault>
    requires some { 0 < length text.now }
    requires opens { opening_spec text.now ≡ opens.StartTag }
    ensures read { IfOk result (λ split. StartTagAt text.now split.1.now split.0) }
    ensures shorter { IfOk result (λ split. length split.1.now < length text.now) }
    ensures refused { IfCause result (λ _. (rest : List ℕ) (tag : PureTag)
        → StartTagAt text.now rest tag → ⊥) }
{
    let inner = without(1, text);
    let (name, behind) = inner.split_at(name_len(inner));
    let (attributes, end) = attributes(alloc, behind)?;
    let Some((closed, rest)) = tag_end(end) else {
        return Err(TokenFault::Cause(NotTokens));
    };
    let name = folded(alloc, name)?;
    Ok((
        Tag {
            name,
            attributes,
            closed,
        },
        rest,
    ))
}

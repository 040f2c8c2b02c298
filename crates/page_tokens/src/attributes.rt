//! The attributes of a start tag.

ghost use Rattle.std.specs.Prelude.{◌≡◌, ◌<◌, ◌≤◌, ℕ, List, length, IfOk, IfSome, MatchOption, None, Some};
ghost use Rattle.js_core.specs.Memory.{IfCause};
ghost use Rattle.dom_tree.specs.Name.{folded as folded_name};
ghost use Rattle.page_tokens.specs.Attributes as spec;
ghost use Rattle.page_tokens.specs.Attributes.{Attributes};
ghost use Rattle.page_tokens.specs.Characters as characters;

use crate::characters::{
    behind_space, is_name_start, is_quote, is_space, is_value_part, len_before, lower_case,
    name_len, value_len,
};
use crate::fault::TokenFault;
use crate::references::decoded;
use crate::token::AttributeList;
use js_core::{OutOfMemory, Units};
use std::alloc::Global;

/// The attributes with which the text begins, and what stands behind them. `NotTokens` where a reference in one of their values
/// stands for nothing.
pub fn attributes(alloc: Global, text: &[u16]) -> Result<(AttributeList, &[u16]), TokenFault>
    ensures read { IfOk result (λ split. Attributes text.now split.1.now split.0) }
    ensures within { IfOk result (λ split. length split.1.now ≤ length text.now) }
    ensures refused { IfCause result (λ _. (rest : List ℕ) (all : List (List ℕ
        × List ℕ)) → Attributes text.now rest all → ⊥) }
{
    let mut all = AttributeList::new(alloc);
    let mut rest = text;
    while let Some((name, raw, behind)) = attribute(rest) {
        let value = decoded(alloc, raw)?;
        all.push(folded(alloc, name)?, value)?;
        rest = behind;
    }
    Ok((all, rest))
}

/// The name with its ASCII letters in lower case.
pub fn folded(alloc: Global, name: &[u16]) -> Result<Units, OutOfMemory>
    ensures { IfOk result (λ text. text ≡ folded_name name.now) }
{
    let mut units = Vec::new(alloc);
    for unit in name {
        units.push(lower_case(*unit))?;
    }
    Units::of(alloc, units.as_slice())
}

/// The attribute with which the text begins, as its name and its value are written, and what stands behind it.
#[tactic(auto, unfolding(crate::specs::Attributes::attribute_of))]
fn attribute(text: &[u16]) -> Option<(&[u16], &[u16], &[u16])>
    ensures read { MatchOption result (spec.attribute_of text.now ≡ None)
        (λ split. spec.attribute_of text.now ≡ Some (split.0.now, split.1.now, split.2.now)) }
    ensures shorter { IfSome result (λ split. length split.2.now < length text.now) }
{
    match text {
        [unit, ..] if is_space(*unit) => named(behind_space(text)),
        _ => None,
    }
}

/// The same behind the white space.
fn named(text: &[u16]) -> Option<(&[u16], &[u16], &[u16])>
    ensures read { MatchOption result (spec.named text.now ≡ None)
        (λ split. spec.named text.now ≡ Some (split.0.now, split.1.now, split.2.now)) }
    ensures shorter { IfSome result (λ split. length split.2.now < length text.now) }
{
    match text {
        [unit, ..] if is_name_start(*unit) => {
            let (name, behind) = text.split_at(name_len(text));
            let (raw, rest) = valued(behind)?;
            Some((name, raw, rest))
        }
        _ => None,
    }
}

/// The value behind a name as it is written, which is empty where no `=` stands, and what stands behind it.
fn valued(text: &[u16]) -> Option<(&[u16], &[u16])>
    ensures read { (name : List ℕ) → MatchOption result (spec.valued name text.now
        (characters.behind characters.is_space text.now) ≡ None)
        (λ split. spec.valued name text.now (characters.behind characters.is_space text.now)
        ≡ Some (name, split.0.now, split.1.now)) }
    ensures within { IfSome result (λ split. length split.1.now ≤ length text.now) }
{
    match behind_space(text) {
        [unit, behind @ ..] if *unit == u16::from(b'=') => value(behind_space(behind)),
        _ => Some((&[], text)),
    }
}

/// The value with which the text begins, as it is written, and what stands behind it.
#[tactic(auto, unfolding(crate::specs::Attributes::value_of))]
fn value(text: &[u16]) -> Option<(&[u16], &[u16])>
    ensures read { MatchOption result (spec.value_of text.now ≡ None)
        (λ split. spec.value_of text.now ≡ Some (split.0.now, split.1.now)) }
    ensures within { IfSome result (λ split. length split.1.now ≤ length text.now) }
{
    let [unit, behind @ ..] = text else {
        return None;
    };
    if is_quote(*unit) {
        return quoted(*unit, behind);
    }
    if is_value_part(*unit) {
        return Some(text.split_at(value_len(text)));
    }
    None
}

/// What stands before the closing quote, and what behind it.
fn quoted(quote: u16, text: &[u16]) -> Option<(&[u16], &[u16])>
    ensures read { MatchOption result (spec.closed (characters.run_of
        (characters.is_other quote) text.now) (characters.behind
        (characters.is_other quote) text.now) ≡ None)
        (λ split. spec.closed (characters.run_of (characters.is_other quote) text.now)
        (characters.behind (characters.is_other quote) text.now)
        ≡ Some (split.0.now, split.1.now)) }
    ensures within { IfSome result (λ split. length split.1.now ≤ length text.now) }
{
    let (raw, behind) = text.split_at(len_before(quote, text));
    match behind {
        [] => None,
        [_, rest @ ..] => Some((raw, rest)),
    }
}

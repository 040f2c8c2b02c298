//! What stands between tokens: white space, line ends and comments.

ghost use Rattle.std.specs.Prelude.{◌≡◌, ◌==◌, ◌<◌, ◌≤◌, IfSome, not, length, MatchOption, None, Some};
ghost use Rattle.std.specs.List.{prefix_len};
ghost use Rattle.js_core.specs.Characters as common;
ghost use Rattle.js_lexer.specs.Characters as characters;
ghost use Rattle.js_lexer.specs.Separators as spec;

use js_core::{is_line_end, is_white_space};

/// The text behind the white space, line ends and comments with which it begins, and whether a line end stands in them.
pub fn behind_gap(text: &[u16]) -> (bool, &[u16])
    ensures read { spec.Gap text.now result.1.now result.0 }
    ensures within { length result.1.now ≤ length text.now }
{
    let mut rest = text;
    let mut line_end = false;
    while let Some((line, behind)) = separator(rest) {
        line_end |= line;
        rest = behind;
    }
    (line_end, rest)
}

/// Whether a line end stands in the white space, line end or comment with which the text begins, and what stands
/// behind it.
#[tactic(auto, unfolding(crate::specs::Separators::separator_of))]
fn separator(text: &[u16]) -> Option<(bool, &[u16])>
    ensures read { MatchOption result (spec.separator_of text.now ≡ None)
        (λ split. spec.separator_of text.now ≡ Some (split.0, split.1.now)) }
    ensures shorter { IfSome result (λ split. length split.1.now < length text.now) }
{
    let [unit, behind @ ..] = text else {
        return None;
    };
    if is_white_space(*unit) {
        Some((false, behind))
    } else if is_line_end(*unit) {
        Some((true, behind))
    } else if *unit == u16::from(b'/') {
        comment(behind)
    } else {
        None
    }
}

/// The same of a comment behind its first `/` (ECMA-262 5.1 section 7.4).
fn comment(text: &[u16]) -> Option<(bool, &[u16])>
    ensures read { MatchOption result (spec.comment_of text.now ≡ None)
        (λ split. spec.comment_of text.now ≡ Some (split.0, split.1.now)) }
    ensures shorter { IfSome result (λ split. length split.1.now < length text.now) }
{
    let [unit, behind @ ..] = text else {
        return None;
    };
    if *unit == u16::from(b'/') {
        Some((false, behind_line(behind)))
    } else if *unit == u16::from(b'*') {
        behind_comment(behind)
    } else {
        None
    }
}

/// The text without its first line.
fn behind_line(text: &[u16]) -> &[u16]
    ensures read { result.now ≡ spec.behind_line text.now }
    ensures within { length result.now ≤ length text.now }
{
    &text[line_len(text)..]
}

/// How many units stand before the first line end.
fn line_len(text: &[u16]) -> usize
    ensures read { result ≡ prefix_len (λ u. not (common.is_line_end u)) text.now }
    ensures within { result ≤ length text.now }
{
    text.iter().take_while(|unit| !is_line_end(**unit)).count()
}

/// The text behind the first `*/`, and whether a line end stands before it.
fn behind_comment(text: &[u16]) -> Option<(bool, &[u16])>
    ensures read { MatchOption result (spec.behind_comment text.now ≡ None)
        (λ split. spec.behind_comment text.now ≡ Some (split.0, split.1.now)) }
    ensures shorter { IfSome result (λ split. length split.1.now < length text.now) }
{
    let mut rest = text;
    let mut line_end = false;
    while let [unit, behind @ ..] = rest {
        if *unit == u16::from(b'*') && begins_with_slash(behind) {
            return Some((line_end, &behind[1..]));
        }
        line_end = line_end || is_line_end(*unit);
        rest = behind;
    }
    None
}

fn begins_with_slash(text: &[u16]) -> bool
    ensures { result ≡ characters.begins_with (λ v. v == 47) text.now }
{
    match text {
        [] => false,
        [unit, ..] => *unit == u16::from(b'/'),
    }
}

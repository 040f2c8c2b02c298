//! Which tags a page may have.

ghost use Rattle.std.specs.Prelude.{◌≡◌, bytes_eq, option_copied, Some, None};
ghost use Rattle.std.specs.Char.{to_ascii_lowercase};
ghost use Rattle.std.specs.List.{list_all};
ghost use Rattle.dom_tree.specs.Attributes.{value_of};
ghost use Rattle.dom_tree.specs.Name.{folded};
ghost use Rattle.page_reader.specs.Elements as spec;

use dom_tree::{is_name, is_void};
use js_core::Units;
use page_tokens::Tag;

/// Elements whose content would be read by other rules.
const REFUSED_NAMES: &[&[u8]] = &[
    b"frame",
    b"frameset",
    b"iframe",
    b"noembed",
    b"noframes",
    b"noscript",
    b"plaintext",
    b"template",
    b"xmp",
];

/// Whether a page may have the start tag.
#[tactic(auto, unfolding(crate::specs::Elements::is_allowed))]
pub fn is_allowed(tag: &Tag) -> bool
    ensures { result ≡ spec.is_allowed tag.now }
{
    if !is_name(&tag.name) || tag.name.is_among(REFUSED_NAMES) {
        return false;
    }
    let attributes = tag.attributes.as_slice();
    if !are_attributes(attributes) || tag.closed && !is_void(&tag.name) {
        return false;
    }
    !is_script(&tag.name) || is_own_script(attributes)
}

/// Whether the element is a script.
pub fn is_script(name: &Units) -> bool
    ensures { result ≡ spec.is_script name.now }
{
    name.spells(b"script")
}

/// Whether all names are names, and none is that of a handler.
fn are_attributes(attributes: &[(Units, Units)]) -> bool
    ensures { result ≡ list_all spec.is_attribute attributes.now }
{
    attributes
        .iter()
        .all(|(name, _)| is_name(name) && !is_handler(name.as_slice()))
}

/// Whether the name begins with `on`.
fn is_handler(name: &[u16]) -> bool
    ensures { result ≡ spec.is_handler name.now }
{
    match name {
        [first, second, ..] => *first == u16::from(b'o') && *second == u16::from(b'n'),
        _ => false,
    }
}

/// Whether a script has no source, and a type of the language.
fn is_own_script(attributes: &[(Units, Units)]) -> bool
    ensures { result ≡ spec.is_own_script attributes.now }
{
    find(b"src", attributes).is_none() && is_script_type(find(b"type", attributes))
}

fn is_script_type(kind: Option<&Units>) -> bool
    ensures { result ≡ spec.is_script_type (option_copied kind.entry) }
{
    match kind {
        None => true,
        Some(kind) => is_type_text(kind.as_slice()),
    }
}

fn is_type_text(kind: &[u16]) -> bool
    ensures { result ≡ spec.is_script_type (Some kind.now) }
{
    match kind {
        [] => true,
        _ => is_word(b"text/javascript", kind) || is_word(b"application/javascript", kind),
    }
}

/// Whether the text is these lower-case codes, in whatever case.
fn is_word(word: &[u8], text: &[u16]) -> bool
    ensures { result ≡ bytes_eq (folded text.now) word.now }
{
    let mut text = text;
    let mut word = word;
    while let [code, more @ ..] = word {
        let [unit, behind @ ..] = text else {
            return false;
        };
        if lower_case(*unit) != u16::from(*code) {
            return false;
        }
        text = behind;
        word = more;
    }
    text.is_empty()
}

/// The unit, in lower case where it is an ASCII letter.
fn lower_case(unit: u16) -> u16
    ensures { result ≡ to_ascii_lowercase unit }
{
    if matches!(unit, 0x41..=0x5a) {
        unit + 0x20
    } else {
        unit
    }
}

/// The value of the attribute with this name, if there is one.
#[tactic(auto, using(crate::proofs::Named::value_here, crate::proofs::Named::value_past))]
fn find<'a>(name: &[u8], attributes: &'a [(Units, Units)]) -> Option<&'a Units>
    ensures { option_copied result ≡ value_of name.now attributes.now }
{
    for (known, value) in attributes {
        if known.spells(name) {
            return Some(value);
        }
    }
    None
}

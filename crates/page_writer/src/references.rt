//! The lexemes of what an object is reached by, and of numbers.

ghost use Rattle.std.specs.Prelude.{◌≡◌, [], ◌∷◌, ◌++◌, ℕ, List, IfOk, OnOk, Some, pos};
ghost use Rattle.js_core.specs.Tree as tree;
ghost use Rattle.js_print.specs.Lexemes.{expr_lexemes};
ghost use Rattle.js_print.specs.Places.{placed};
ghost use Rattle.js_print.specs.declared.lexeme.Lexeme.TheVariants as lexeme;
ghost use Rattle.js_print.specs.declared.place.Place.TheVariants.{Base, Part};
ghost use Rattle.page_writer.specs.Dotted.{dotted};
ghost use Rattle.page_writer.specs.Statements as spec;

use built_in_paths::path;
use heap_walker::FIRST_THING;
use js_core::{OutOfMemory, Punct, Units, Whole, ascii_text};
use js_print::{Lexeme, push_lexeme, push_punct};
use js_values::ObjId;
use page_state::DOCUMENT;
use std::alloc::Global;

/// Appends a name of ASCII characters.
pub fn push_word(alloc: Global, word: &[u8], out: &mut Vec<Lexeme>) -> Result<(), OutOfMemory>
    ensures { OnOk result (out.new.items ≡ out.old.items ++ lexeme.Name word.now ∷ []) }
{
    push_lexeme(Lexeme::Name(ascii_text(alloc, word)?), out)
}

/// Appends a string of ASCII characters.
pub fn push_string(alloc: Global, text: &[u8], out: &mut Vec<Lexeme>) -> Result<(), OutOfMemory>
    ensures { OnOk result (out.new.items ≡ out.old.items ++ lexeme.Text text.now ∷ []) }
{
    push_lexeme(Lexeme::Text(ascii_text(alloc, text)?), out)
}

// No memory holds so many things that the number would be none.
fn whole(number: u64) -> Result<Whole, OutOfMemory>
    ensures { IfOk result (λ w. w ≡ Some (pos number)) }
{
    if number > Whole::LARGEST as u64 {
        return Err(OutOfMemory);
    }
    match Whole::new(number as i64) {
        Some(whole) => Ok(whole),
        None => Err(OutOfMemory),
    }
}

/// Appends a number in decimal.
pub fn push_number(number: u64, out: &mut Vec<Lexeme>) -> Result<(), OutOfMemory>
    ensures { OnOk result (out.new.items ≡ out.old.items
        ++ lexeme.Number (Some (pos number)) ∷ []) }
{
    push_lexeme(Lexeme::Number(whole(number)?), out)
}

/// Appends `$$[n]`, which holds the thing with this number.
pub fn push_thing(alloc: Global, number: u64, out: &mut Vec<Lexeme>) -> Result<(), OutOfMemory>
    ensures { OnOk result (out.new.items ≡ out.old.items
        ++ expr_lexemes (spec.thing_expr number)) }
{
    push_word(alloc, b"$$", out)?;
    push_punct(Punct::LeftBracket, out)?;
    push_number(number, out)?;
    push_punct(Punct::RightBracket, out)
}

// What an object is reached by: a built-in one by its path, the document by its name, a thing by its number.
fn push_reference(alloc: Global, at: ObjId, out: &mut Vec<Lexeme>) -> Result<(), OutOfMemory>
    ensures { OnOk result (out.new.items ≡ out.old.items ++ expr_lexemes (spec.reference at)) }
{
    match path(at) {
        Some(path) => push_path(alloc, path, out),
        None => push_unlisted(alloc, at, out),
    }
}

// The document by its name, and a thing by its number.
#[tactic(auto, unfolding(page_meaning::specs::Places::built_in_count))]
fn push_unlisted(alloc: Global, at: ObjId, out: &mut Vec<Lexeme>) -> Result<(), OutOfMemory>
    ensures { OnOk result (out.new.items ≡ out.old.items ++ expr_lexemes (spec.unlisted at.0)) }
{
    if at == DOCUMENT {
        return push_word(alloc, b"document", out);
    }
    push_thing(alloc, at.0.saturating_sub(FIRST_THING), out)
}

/// Appends what an object is reached by, as it stands before a dot.
#[tactic(auto, using(crate::proofs::Trees::reference_base))]
pub fn push_base(alloc: Global, at: ObjId, out: &mut Vec<Lexeme>) -> Result<(), OutOfMemory>
    ensures { OnOk result (out.new.items ≡ out.old.items
        ++ placed Base (spec.reference at) (expr_lexemes (spec.reference at))) }
{
    push_reference(alloc, at, out)
}

/// Appends the same, as it stands between commas.
#[tactic(auto, using(crate::proofs::Trees::reference_part))]
pub fn push_part(alloc: Global, at: ObjId, out: &mut Vec<Lexeme>) -> Result<(), OutOfMemory>
    ensures { OnOk result (out.new.items ≡ out.old.items
        ++ placed Part (spec.reference at) (expr_lexemes (spec.reference at))) }
{
    push_reference(alloc, at, out)
}

/// Appends the name of a member of an object, after what the object is reached by.
pub fn push_member(
    alloc: Global,
    at: ObjId,
    word: &[u8],
    out: &mut Vec<Lexeme>,
) -> Result<(), OutOfMemory>
    ensures { OnOk result (out.new.items ≡ out.old.items
        ++ expr_lexemes (tree.member (spec.reference at) word.now)) }
{
    push_base(alloc, at, out)?;
    push_punct(Punct::Dot, out)?;
    push_word(alloc, word, out)
}

/// Appends the name of a member of the document, after `document`.
pub fn push_document_member(
    alloc: Global,
    word: &[u8],
    out: &mut Vec<Lexeme>,
) -> Result<(), OutOfMemory>
    ensures { OnOk result (out.new.items ≡ out.old.items
        ++ expr_lexemes (tree.member spec.document_expr word.now)) }
{
    push_word(alloc, b"document", out)?;
    push_punct(Punct::Dot, out)?;
    push_word(alloc, word, out)
}

// The names between the dots of a path, with the dots.
fn push_path(alloc: Global, path: &[u8], out: &mut Vec<Lexeme>) -> Result<(), OutOfMemory>
    ensures { OnOk result (out.new.items ≡ out.old.items ++ dotted [] path.now) }
{
    let mut name = Vec::new(alloc);
    let mut rest = path;
    while let [byte, after @ ..] = rest {
        push_path_byte(alloc, *byte, &mut name, out)?;
        rest = after;
    }
    push_lexeme(Lexeme::Name(Units::of(alloc, name.as_slice())?), out)
}

// A name ends at a dot; any other byte is its next unit. More of the path can follow.
fn push_path_byte(
    alloc: Global,
    byte: u8,
    name: &mut Vec<u16>,
    out: &mut Vec<Lexeme>,
) -> Result<(), OutOfMemory>
    ensures { (more : List ℕ) → OnOk result (out.new.items ++ dotted name.new.items more
        ≡ out.old.items ++ dotted name.old.items (byte ∷ more)) }
{
    if byte == b'.' {
        push_lexeme(Lexeme::Name(Units::of(alloc, name.as_slice())?), out)?;
        name.clear();
        return push_punct(Punct::Dot, out);
    }
    name.push(u16::from(byte))?;
    Ok(())
}

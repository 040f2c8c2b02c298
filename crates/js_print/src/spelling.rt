//! The text of lexemes.

ghost use Rattle.std.specs.Prelude.{◌≡◌, ◌++◌, take, length, OnOk, OnErr};
ghost use Rattle.js_print.specs.Spelling as spec;

use crate::lexeme::Lexeme;
use crate::strings::push_string;
use itoa::Buffer;
use js_core::{OutOfMemory, Whole, truncate_on_error};

/// Appends the text of lexemes, with one space between two exactly where the first ends and the second begins with an
/// identifier character. After an error nothing is appended.
pub fn push_lexemes(lexemes: &[Lexeme], out: &mut Vec<u8>) -> Result<(), OutOfMemory>
    ensures ok { OnOk result (out.new.items ≡ out.old.items ++ spec.text_of lexemes.now) }
    ensures err { OnErr result (out.new.items ≡ out.old.items) }
{
    let length = out.len();
    let pushed = push_each(lexemes, out);
    truncate_on_error(out, length, pushed)
}

// After an error a part of the text may be appended.
fn push_each(lexemes: &[Lexeme], out: &mut Vec<u8>) -> Result<(), OutOfMemory>
    ensures ok { OnOk result (out.new.items ≡ out.old.items ++ spec.text_of lexemes.now) }
    ensures err { OnErr result (take (length out.old.items) out.new.items ≡ out.old.items) }
{
    let mut after_word = false;
    let mut rest = lexemes;
    while let [lexeme, after @ ..] = rest {
        push_space(after_word, is_word(lexeme), out)?;
        push_lexeme(lexeme, out)?;
        after_word = is_word(lexeme);
        rest = after;
    }
    Ok(())
}

/// Whether the lexeme begins and ends with an identifier character.
pub fn is_word(lexeme: &Lexeme) -> bool
    ensures { result ≡ spec.is_word lexeme.now }
{
    match lexeme {
        Lexeme::Keyword(_) | Lexeme::Name(_) | Lexeme::Number(_) => true,
        Lexeme::Text(_) | Lexeme::Punct(_) => false,
    }
}

fn push_space(after_word: bool, before_word: bool, out: &mut Vec<u8>) -> Result<(), OutOfMemory>
    ensures ok { OnOk result (out.new.items ≡ out.old.items
        ++ spec.space_between after_word before_word) }
    ensures err { OnErr result (take (length out.old.items) out.new.items ≡ out.old.items) }
{
    if after_word && before_word {
        out.push(b' ')?;
    }
    Ok(())
}

fn push_lexeme(lexeme: &Lexeme, out: &mut Vec<u8>) -> Result<(), OutOfMemory>
    ensures ok { OnOk result (out.new.items ≡ out.old.items ++ spec.lexeme_text lexeme.now) }
    ensures err { OnErr result (take (length out.old.items) out.new.items ≡ out.old.items) }
{
    match lexeme {
        Lexeme::Keyword(keyword) => push_bytes(keyword.text(), out),
        Lexeme::Name(name) => name.to_line_text(out),
        Lexeme::Number(number) => push_number(number, out),
        Lexeme::Text(text) => push_string(text.as_slice(), out),
        Lexeme::Punct(punct) => push_bytes(punct.text(), out),
    }
}

fn push_number(number: &Whole, out: &mut Vec<u8>) -> Result<(), OutOfMemory>
    ensures ok { OnOk result (out.new.items ≡ out.old.items ++ spec.number_text number.now) }
    ensures err { OnErr result (take (length out.old.items) out.new.items ≡ out.old.items) }
{
    match number.get() {
        Some(value) if value >= 0 => {
            let mut digits = Buffer::new();
            push_bytes(digits.format(value as u64).as_bytes(), out)
        }
        _ => Ok(()),
    }
}

fn push_bytes(bytes: &[u8], out: &mut Vec<u8>) -> Result<(), OutOfMemory>
    ensures ok { OnOk result (out.new.items ≡ out.old.items ++ bytes.now) }
    ensures err { OnErr result (out.new.items ≡ out.old.items) }
{
    out.extend_from_slice(bytes)?;
    Ok(())
}

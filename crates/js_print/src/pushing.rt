//! The appending of single lexemes to a list.

ghost use Rattle.std.specs.Prelude.{◌≡◌, [], ◌∷◌, ◌++◌, OnOk};
ghost use Rattle.js_core.specs.declared.token.Punct.TheVariants as punct;
ghost use Rattle.js_print.specs.declared.lexeme.Lexeme.TheVariants as lexeme;
ghost use Rattle.js_print.specs.Lexemes as spec;

use crate::lexeme::Lexeme;
use js_core::{Keyword, OutOfMemory, Punct, Units};

/// Appends a lexeme.
pub fn push_lexeme(added: Lexeme, out: &mut Vec<Lexeme>) -> Result<(), OutOfMemory>
    ensures { OnOk result (out.new.items ≡ out.old.items ++ added ∷ []) }
{
    out.push(added)?;
    Ok(())
}

/// Appends a reserved word.
pub fn push_keyword(keyword: Keyword, out: &mut Vec<Lexeme>) -> Result<(), OutOfMemory>
    ensures { OnOk result (out.new.items ≡ out.old.items ++ lexeme.Keyword keyword ∷ []) }
{
    out.push(Lexeme::Keyword(keyword))?;
    Ok(())
}

/// Appends a punctuator.
pub fn push_punct(punct: Punct, out: &mut Vec<Lexeme>) -> Result<(), OutOfMemory>
    ensures { OnOk result (out.new.items ≡ out.old.items ++ lexeme.Punct punct ∷ []) }
{
    out.push(Lexeme::Punct(punct))?;
    Ok(())
}

/// Appends a name, which shares its units.
pub fn push_name(name: &Units, out: &mut Vec<Lexeme>) -> Result<(), OutOfMemory>
    ensures { OnOk result (out.new.items ≡ out.old.items ++ lexeme.Name name.now ∷ []) }
{
    out.push(Lexeme::Name(name.clone()?))?;
    Ok(())
}

/// Appends a string literal, which shares its units.
pub fn push_text(text: &Units, out: &mut Vec<Lexeme>) -> Result<(), OutOfMemory>
    ensures { OnOk result (out.new.items ≡ out.old.items ++ lexeme.Text text.now ∷ []) }
{
    out.push(Lexeme::Text(text.clone()?))?;
    Ok(())
}

/// Appends the name of a function, if it has one.
pub fn push_maybe_name(name: &Option<Units>, out: &mut Vec<Lexeme>) -> Result<(), OutOfMemory>
    ensures { OnOk result (out.new.items ≡ out.old.items ++ spec.maybe_name name.now) }
{
    match name {
        None => Ok(()),
        Some(name) => push_name(name, out),
    }
}

/// Appends names with commas between them, in parentheses.
pub fn push_formals(names: &[Units], out: &mut Vec<Lexeme>) -> Result<(), OutOfMemory>
    ensures { OnOk result (out.new.items ≡ out.old.items ++ lexeme.Punct punct.LeftParenthesis
        ∷ (spec.names names.now ++ lexeme.Punct punct.RightParenthesis ∷ [])) }
{
    push_punct(Punct::LeftParenthesis, out)?;
    push_names(names, out)?;
    push_punct(Punct::RightParenthesis, out)
}

fn push_names(names: &[Units], out: &mut Vec<Lexeme>) -> Result<(), OutOfMemory>
    ensures { OnOk result (out.new.items ≡ out.old.items ++ spec.names names.now) }
{
    let [name, more @ ..] = names else {
        return Ok(());
    };
    push_name(name, out)?;
    push_more_names(more, out)
}

fn push_more_names(names: &[Units], out: &mut Vec<Lexeme>) -> Result<(), OutOfMemory>
    ensures { OnOk result (out.new.items ≡ out.old.items ++ spec.more_names names.now) }
{
    let mut rest = names;
    while let [name, after @ ..] = rest {
        push_punct(Punct::Comma, out)?;
        push_name(name, out)?;
        rest = after;
    }
    Ok(())
}

/// Appends `var`, or nothing.
pub fn push_maybe_var(declared: bool, out: &mut Vec<Lexeme>) -> Result<(), OutOfMemory>
    ensures { OnOk result (out.new.items ≡ out.old.items ++ spec.maybe_var declared) }
{
    if declared {
        push_keyword(Keyword::Var, out)?;
    }
    Ok(())
}

/// The lexeme of a boolean.
pub fn boolean_lexeme(value: bool) -> Lexeme
    ensures { result ≡ spec.boolean_lexeme value }
{
    if value {
        Lexeme::Keyword(Keyword::True)
    } else {
        Lexeme::Keyword(Keyword::False)
    }
}

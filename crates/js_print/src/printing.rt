//! The printed text of scripts and functions.

ghost use Rattle.std.specs.Prelude.{◌≡◌, ◌+◌, ◌++◌, OnOk, OnErr};
ghost use Rattle.js_print.specs.Printing.{script_text, code_text, unnamed};
ghost use Rattle.js_print.specs.ReadAgain.{Appended, IsReadAgain, IsDeclared, IsExpressed};

use crate::expressions::{push_code, push_unnamed_code};
use crate::spelling::push_lexemes;
use crate::statements::push_statements;
use js_core::{Code, OutOfMemory, Script};
use std::alloc::Global;

/// Appends the text of a script (ECMA-262 5.1 section 14): its tokens with one space between two exactly where the first
/// ends and the second begins with an identifier character, every body in braces, and `;` after every statement that
/// needs one. Where the script keeps the rules on trees, the tokens of the printed text derive it again: of other trees a text
/// is printed that need not be a script. After an error nothing is appended.
#[tactic(auto, using(crate::proofs::ReadAgain::printed_script))]
pub fn print(alloc: Global, script: &Script, out: &mut Vec<u8>) -> Result<(), OutOfMemory>
    ensures ok { OnOk result (out.new.items ≡ out.old.items ++ script_text script.now) }
    ensures read_back { OnOk result (Appended
        (IsReadAgain script.now) out.old.items out.new.items) }
    ensures err { OnErr result (out.new.items ≡ out.old.items) }
{
    let mut lexemes = Vec::new(alloc);
    push_statements(script.body.as_slice(), &mut lexemes)?;
    push_lexemes(lexemes.as_slice(), out)
}

/// Appends the text of a function, `function name(formals){body}`, as a script has it (section 13). By itself it is read
/// again as the declaration that it is printed of, and in parentheses as the function expression. After an error nothing is
/// appended.
#[tactic(auto, using(crate::proofs::ReadAgain::printed_declaration, crate::proofs::ReadAgain::printed_expression))]
pub fn print_code(alloc: Global, code: &Code, out: &mut Vec<u8>) -> Result<(), OutOfMemory>
    ensures ok { OnOk result (out.new.items ≡ out.old.items ++ code_text code.now) }
    ensures declared { OnOk result (Appended (IsDeclared code.now) out.old.items out.new.items) }
    ensures expressed { OnOk result (Appended (IsExpressed code.now) out.old.items out.new.items) }
    ensures err { OnErr result (out.new.items ≡ out.old.items) }
{
    let mut lexemes = Vec::new(alloc);
    push_code(code, &mut lexemes)?;
    push_lexemes(lexemes.as_slice(), out)
}

/// Appends the text of a function without its name, `function(formals){body}`: the expression that makes what a declaration
/// declares (section 13.2). In parentheses it is read again so. After an error nothing is appended.
#[tactic(auto, using(crate::proofs::ReadAgain::printed_expression))]
pub fn print_unnamed(alloc: Global, code: &Code, out: &mut Vec<u8>) -> Result<(), OutOfMemory>
    ensures ok { OnOk result (out.new.items ≡ out.old.items ++ code_text (unnamed code.now)) }
    ensures expressed { OnOk result (Appended
        (IsExpressed (unnamed code.now)) out.old.items out.new.items) }
    ensures err { OnErr result (out.new.items ≡ out.old.items) }
{
    let mut lexemes = Vec::new(alloc);
    push_unnamed_code(code, &mut lexemes)?;
    push_lexemes(lexemes.as_slice(), out)
}

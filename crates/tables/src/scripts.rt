//! The tree of a script's text, as a table has it.

use expression_parser::{NotScript, ParseFault};
use js_core::{OutOfMemory, Units};
use js_lexer::{LexFault, NotTokens, tokens};
use js_print::print;
use script_parser::script;
use std::alloc::Global;

/// The printed text of the script's tree, in which every operand that has parts stands in parentheses and every body in braces, or
/// `refused` where the text has no tokens, or these have no script.
pub fn reading(alloc: Global, text: &str) -> Result<Vec<u8>, OutOfMemory> {
    let text = Units::from_utf8(alloc, text)?;
    let tokens = match tokens(alloc, &text) {
        Ok(tokens) => tokens,
        Err(LexFault::Cause(NotTokens)) => return refused(alloc),
        Err(LexFault::OutOfMemory) => return Err(OutOfMemory),
    };
    let script = match script(alloc, tokens) {
        Ok(script) => script,
        Err(ParseFault::Cause(NotScript)) => return refused(alloc),
        Err(ParseFault::OutOfMemory) => return Err(OutOfMemory),
    };
    let mut printed = Vec::new(alloc);
    print(alloc, &script, &mut printed)?;
    Ok(printed)
}

fn refused(alloc: Global) -> Result<Vec<u8>, OutOfMemory> {
    Ok(Vec::from_slice(alloc, b"refused")?)
}

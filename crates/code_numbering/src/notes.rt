//! What is noted of a function, so that whoever saves a page need not go through its code again.

ghost use Rattle.std.specs.Prelude.{◌≡◌, IfOk, length};
ghost use Rattle.code_table.specs.Declarations.{held, name_of};
ghost use Rattle.code_table.specs.Notes.{AreNoted};
ghost use Rattle.js_print.specs.Printing.{code_text};
ghost use Rattle.scope_analysis.specs.Needs.{needed_variables};

use code_table::Notes;
use js_core::{Code, OutOfMemory, Units};
use js_print::{code_length, unnamed_length};
use script_rules::needed_variables;
use std::alloc::Global;

/// How deep functions are nested that have notes. To note a function its whole text is gone through once more, for itself and for each
/// function round it, so that the work stays in proportion to the tree only where these are few. A function that is nested deeper is told by
/// going through its code.
pub const NOTED_LEVELS: u32 = 8;

/// The notes of a function, held with its name or without; none where it is no more in these levels.
pub fn notes_at(
    alloc: Global,
    code: &Code,
    named: bool,
    levels: u32,
) -> Result<Option<Notes>, OutOfMemory>
    ensures { IfOk result (λ notes. AreNoted (held named code.now) notes) }
{
    if levels == 0 {
        return Ok(None);
    }
    let needed = needed_names(alloc, code, named)?;
    let printed = printed_length(alloc, code, named)?;
    Ok(Some(Notes { needed, printed }))
}

// The variables that it needs from the scopes round it, in the order of their uses (ECMA-262 5.1 sections 10.2 and 13).
#[tactic(auto, using(crate::proofs::Held::held_whole))]
fn needed_names(alloc: Global, code: &Code, named: bool) -> Result<Vec<Units>, OutOfMemory>
    ensures { IfOk result (λ names. names.items ≡ needed_variables (held named code.now)) }
{
    let own = own_name(code, named)?;
    needed_variables(alloc, &own, code)
}

// Its name, if it is held with one.
fn own_name(code: &Code, named: bool) -> Result<Option<Units>, OutOfMemory>
    ensures { IfOk result (λ own. own ≡ name_of (held named code.now)) }
{
    if !named {
        return Ok(None);
    }
    match &code.name {
        Some(name) => Ok(Some(name.clone()?)),
        None => Ok(None),
    }
}

// How many bytes it has as an expression, with its name where it is held with it (section 13).
fn printed_length(alloc: Global, code: &Code, named: bool) -> Result<u64, OutOfMemory>
    ensures { IfOk result (λ bytes. bytes ≡ length (code_text (held named code.now))) }
{
    if named {
        code_length(alloc, code)
    } else {
        unnamed_length(alloc, code)
    }
}

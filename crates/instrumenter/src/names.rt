//! The captured names of scopes, and the names of their objects.

ghost use Rattle.std.specs.Prelude.{◌≡◌, ◌++◌, List, ℕ, suc, bytes_eq, filter, IfOk, OnOk};
ghost use Rattle.scope_analysis.specs.Names.{code_body, code_formals, declared_names, maybe_name};
ghost use Rattle.scope_analysis.specs.Scopes.{scope_names};
ghost use Rattle.scope_analysis.specs.UseTables.{table_of};
ghost use Rattle.scope_analysis.specs.Uses.{Use, is_captured, stmts_uses};
ghost use Rattle.js_core.specs.Tree.{stmts_of};
ghost use Rattle.instrumenter.specs.Around as spec;
ghost use Rattle.instrumenter.specs.Fields.{clause_fields, fields_in};

use indexmap::IndexSet;
use itoa::Buffer;
use js_core::{Catch, Code, OutOfMemory, Stmt, Units, ascii_text};
use scope_analysis::{UseTable, insert_names, push_declared_names, push_maybe_name, push_names};
use script_rules::{ScopeTest, note_statements};
use std::alloc::Global;

/// The captured variables of a function with this own name: its formals, then its own name, then the others in the order of
/// their declarations.
pub fn fields_in(alloc: Global, own: &Option<Units>, code: &Code) -> Result<Vec<Units>, OutOfMemory>
    ensures { IfOk result (λ fields. fields.items ≡ fields_in own.now code.now) }
{
    let uses = uses_of(alloc, code.body.as_slice())?;
    let mut declared = Vec::new(alloc);
    push_names(code.formals.as_slice(), &mut declared)?;
    push_maybe_name(own, &mut declared)?;
    push_declared_names(code.body.as_slice(), &mut declared)?;
    let mut names = IndexSet::new(alloc);
    insert_names(&mut names, declared.as_slice())?;
    let mut fields = Vec::new(alloc);
    push_captured(&uses, names.as_slice(), &mut fields)?;
    Ok(fields)
}

/// The parameter of the catch clause, where it is captured.
pub fn clause_fields(alloc: Global, clause: &Catch) -> Result<Vec<Units>, OutOfMemory>
    ensures { IfOk result (λ fields. fields.items
        ≡ clause_fields clause.now.name (stmts_of clause.now.body.items)) }
{
    let uses = uses_of(alloc, clause.body.as_slice())?;
    let mut fields = Vec::new(alloc);
    if uses.is_captured(&clause.name) {
        fields.push(clause.name.clone()?)?;
    }
    Ok(fields)
}

// What the statements do with names. The work is in proportion to the statements.
fn uses_of(alloc: Global, statements: &[Stmt]) -> Result<UseTable, OutOfMemory>
    ensures { IfOk result (λ uses. uses ≡ table_of (stmts_uses (stmts_of statements.now))) }
{
    let mut uses = UseTable::new(alloc);
    note_statements(ScopeTest::IsOutOfForm, statements, &mut uses)?;
    Ok(uses)
}

// Appends those of the names that functions inside use.
fn push_captured(uses: &UseTable, names: &[Units], out: &mut Vec<Units>) -> Result<(), OutOfMemory>
    ensures { (us : List Use) → uses.now ≡ table_of us → OnOk result
        (out.new.items ≡ out.old.items ++ filter (λ x. is_captured x us) names.now) }
{
    let mut rest = names;
    while let [name, after @ ..] = rest {
        if uses.is_captured(name) {
            out.push(name.clone()?)?;
        }
        rest = after;
    }
    Ok(())
}

/// `$$n`, in which the object of scope n stands.
pub fn scope_name(alloc: Global, number: u64) -> Result<Units, OutOfMemory>
    ensures { IfOk result (λ name. name ≡ spec.scope_name number) }
{
    let mut text = Vec::new(alloc);
    text.extend_from_slice(b"$$")?;
    text.extend_from_slice(Buffer::new().format(number).as_bytes())?;
    ascii_text(alloc, text.as_slice())
}

// The number behind this one. Each scope takes memory, so that their numbers fit 64 bits.
fn following(number: u64) -> Result<u64, OutOfMemory>
    ensures { IfOk result (λ n. n ≡ suc number) }
{
    number.checked_add(1).ok_or(OutOfMemory)
}

/// The number of the next scope's object, where a scope with these fields has this number for its own.
pub fn next_number(fields: &[Units], number: u64) -> Result<u64, OutOfMemory>
    ensures { IfOk result (λ n. n ≡ spec.next_number fields.now number) }
{
    if fields.is_empty() {
        return Ok(number);
    }
    following(number)
}

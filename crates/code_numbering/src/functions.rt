//! How the tables of functions are made, in a recursion that is as deep as functions are nested.

ghost use Rattle.std.specs.Prelude.{◌≡◌, ◌++◌, ◌∷◌, [], IfOk, OnOk, length, map, None};
ghost use Rattle.js_core.specs.Tree as tree;
ghost use Rattle.js_core.specs.Tree.{stmts_of};
ghost use Rattle.code_table.specs.Declarations.{functions_of, held, name_of, unnamed};
ghost use Rattle.code_table.specs.Table.{declared_as, row_of};
ghost use Rattle.code_numbering.specs.Numbered.{numbered_row};

use crate::notes::{NOTED_LEVELS, notes_at};
use crate::rows::{NodeKind, Numbered, Rows};
use crate::statements::push_body;
use crate::variables::push_variables;
use code_table::{Declared, Entry, FunctionCode, Kind};
use js_core::{Code, OutOfMemory, Script, Stmt, StmtNode};
use std::alloc::Global;
use std::rc::Rc;

/// A script, as a function without a name and formals. Where `noted`, its functions have notes, and those inside them, on as many
/// levels as are noted; the script has none, as no function object holds it. The work and the memory are in proportion to the tree,
/// which notes go through once more for each level.
pub fn script_code(alloc: Global, script: Script, noted: bool) -> Result<FunctionCode, OutOfMemory>
    ensures { IfOk result (λ f. f ≡ tree.code None [] script) }
{
    let code = Code::new(None, Vec::new(alloc), script.into_body());
    let inside = if noted { NOTED_LEVELS } else { 0 };
    function_code(alloc, &Rc::new(alloc, code)?, true, 0, inside)
}

// The function's code, with its name or without, and with notes unless `levels` is 0. The functions inside it have notes on `inside` levels.
#[cycle(making)]
#[tactic(auto, using(crate::proofs::Finished::smaller_rows))]
fn function_code(
    alloc: Global,
    code: &Rc<Code>,
    named: bool,
    levels: u32,
    inside: u32,
) -> Result<FunctionCode, OutOfMemory>
    ensures { IfOk result (λ f. f ≡ held named code.now.value) }
{
    let mut rows = Rows::new(alloc);
    let body = push_body(alloc, &mut rows, code.body.as_slice())?;
    let entries = finish_nodes(alloc, rows.into_nodes(), inside)?;
    let mut variables = Vec::new(alloc);
    push_variables(code.body.as_slice(), &mut variables)?;
    let mut functions = Vec::new(alloc);
    push_functions(alloc, code.body.as_slice(), inside, &mut functions)?;
    let notes = notes_at(alloc, code, named, levels)?;
    FunctionCode::new(
        alloc, code, named, entries, body, variables, functions, notes,
    )
}

// The entries of the nodes, in their order: each function among them gets its table.
#[cycle(making)]
#[tactic(auto, using(crate::proofs::Finished::none_finished, crate::proofs::Finished::one_finished, crate::proofs::Finished::all_finished, crate::proofs::Finished::smaller_node))]
fn finish_nodes(
    alloc: Global,
    mut nodes: Vec<Numbered>,
    levels: u32,
) -> Result<Vec<Entry>, OutOfMemory>
    ensures { IfOk result (λ entries. map row_of entries.items ≡ map numbered_row nodes.items) }
{
    let mut entries = Vec::new(alloc);
    while let Some(node) = nodes.pop() {
        let entry = finish_node(alloc, node, levels)?;
        entries.push(entry)?;
    }
    entries.reverse();
    Ok(entries)
}

// The entry of a node.
#[cycle(making)]
fn finish_node(alloc: Global, node: Numbered, levels: u32) -> Result<Entry, OutOfMemory>
    ensures { IfOk result (λ entry. row_of entry ≡ numbered_row node) }
{
    let Numbered { kind, parts } = node;
    match kind {
        NodeKind::Known(kind) => Ok(Entry { kind, parts }),
        NodeKind::Function(code) => {
            let made = function_code(alloc, &code, true, levels, levels.saturating_sub(1))?;
            Ok(Entry {
                kind: Kind::Func(made),
                parts,
            })
        }
    }
}

// Appends the functions that statements declare.
#[cycle(making)]
fn push_functions(
    alloc: Global,
    ss: &[Stmt],
    levels: u32,
    out: &mut Vec<Declared>,
) -> Result<(), OutOfMemory>
    ensures { OnOk result (map declared_as out.new.items ≡ map declared_as out.old.items
        ++ functions_of (stmts_of ss.now)) }
{
    let mut rest = ss;
    while let [s, after @ ..] = rest {
        push_function(alloc, s, levels, out)?;
        rest = after;
    }
    Ok(())
}

// Appends the function that a statement declares, if it does.
#[cycle(making)]
fn push_function(
    alloc: Global,
    s: &Stmt,
    levels: u32,
    out: &mut Vec<Declared>,
) -> Result<(), OutOfMemory>
    ensures { OnOk result (map declared_as out.new.items ≡ map declared_as out.old.items
        ++ functions_of (tree.then_stmt s.now tree.no_stmts)) }
{
    match &s.node {
        StmtNode::Function(code) => push_declared(alloc, code, levels, out),
        _ => Ok(()),
    }
}

// Appends a declared function.
#[cycle(making)]
fn push_declared(
    alloc: Global,
    code: &Rc<Code>,
    levels: u32,
    out: &mut Vec<Declared>,
) -> Result<(), OutOfMemory>
    ensures { OnOk result (map declared_as out.new.items ≡ map declared_as out.old.items
        ++ (name_of code.now.value, unnamed code.now.value) ∷ []) }
{
    let made = function_code(alloc, code, false, levels, levels.saturating_sub(1))?;
    out.push(declared(code, made)?)?;
    Ok(())
}

// What this code declares, once its table is made.
fn declared(code: &Code, made: FunctionCode) -> Result<Declared, OutOfMemory>
    ensures { IfOk result (λ declared. declared_as declared ≡ (name_of code.now, made)) }
{
    let name = match &code.name {
        None => None,
        Some(name) => Some(name.clone()?),
    };
    Ok(Declared { name, code: made })
}

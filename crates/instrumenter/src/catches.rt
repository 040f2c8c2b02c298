//! Catch clauses with opened scopes.

ghost use Rattle.std.specs.Prelude.{◌≡◌, ◌≤◌, ◌+◌, ℕ, Some, None, IfOk, OnOk, map};
ghost use Rattle.std.specs.Rc.{rc_value};
ghost use Rattle.js_core.specs.Height.{maybe_catch_height};
ghost use Rattle.js_core.specs.Tree as tree;
ghost use Rattle.js_core.specs.Tree.{stmts_of};
ghost use Rattle.js_core.specs.Views.{catch_of};
ghost use Rattle.early_rules.specs.Limits.{plain_height_limit};
ghost use Rattle.instrumenter.specs.Around as around;
ghost use Rattle.instrumenter.specs.Counting.{catch_scopes};
ghost use Rattle.instrumenter.specs.Levels.{around_of};
ghost use Rattle.instrumenter.specs.Opening as spec;

use crate::levels::{Level, in_clause};
use crate::names::{clause_fields, next_number, scope_name};
use crate::pieces::push_clause_object;
use crate::statements::push_statements;
use js_core::{Catch, OutOfMemory, Units};
use std::alloc::Global;
use std::rc::Rc;

/// The catch clause that may be there.
#[cycle(opening)]
pub fn open_catch(
    alloc: Global,
    levels: &[Rc<Level>],
    next: &mut u64,
    catch: &Option<Catch>,
) -> Result<Option<Catch>, OutOfMemory>
    requires { maybe_catch_height (catch_of catch.now) ≤ plain_height_limit }
    ensures opened { IfOk result (λ c. catch_of c
        ≡ spec.open_catch (around_of (map rc_value levels.now)) next.old (catch_of catch.now)) }
    ensures counted { OnOk result (next.new ≡ next.old + catch_scopes (catch_of catch.now)) }
{
    match catch {
        None => Ok(None),
        Some(clause) => Ok(Some(open_clause(alloc, levels, next, clause)?)),
    }
}

#[cycle(opening)]
fn open_clause(
    alloc: Global,
    levels: &[Rc<Level>],
    next: &mut u64,
    clause: &Catch,
) -> Result<Catch, OutOfMemory>
    requires { maybe_catch_height (catch_of (Some clause.now)) ≤ plain_height_limit }
    ensures opened { IfOk result (λ c. catch_of (Some c)
        ≡ spec.open_catch (around_of (map rc_value levels.now)) next.old
        (catch_of (Some clause.now))) }
    ensures counted { OnOk result (next.new ≡ next.old + catch_scopes
        (catch_of (Some clause.now))) }
{
    let fields = clause_fields(alloc, clause)?;
    let number = *next;
    let inner = in_clause(alloc, levels, number, fields.as_slice(), &clause.name)?;
    *next = next_number(fields.as_slice(), number)?;
    let name = parameter(alloc, number, fields.as_slice(), &clause.name)?;
    let mut body = Vec::new(alloc);
    push_clause_object(alloc, number, fields.as_slice(), &mut body)?;
    push_statements(
        alloc,
        inner.as_slice(),
        next,
        clause.body.as_slice(),
        &mut body,
    )?;
    Ok(Catch { name, body })
}

// The parameter becomes `$$n` where it is a field.
fn parameter(
    alloc: Global,
    number: u64,
    fields: &[Units],
    name: &Units,
) -> Result<Units, OutOfMemory>
    ensures { IfOk result (λ x. x ≡ around.parameter number fields.now name.now) }
{
    if fields.is_empty() {
        return name.clone();
    }
    scope_name(alloc, number)
}

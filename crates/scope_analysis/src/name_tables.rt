//! Tables of names, by which a name is found without going over a list.

ghost use Rattle.std.specs.Prelude.{◌≡◌, ◌++◌, [], ◌∷◌, ℕ, List, bytes_eq, IfOk, OnOk};
ghost use Rattle.indexmap.specs.IndexSet.{contains, insert_all};
ghost use Rattle.scope_analysis.specs.Names as spec;

use crate::names::{push_bound_names, push_maybe_name};
use indexmap::IndexSet;
use js_core::{Code, OutOfMemory, Units};
use std::alloc::Global;

/// Puts the names into the set, each behind those that are there, where it is not among them.
pub fn insert_names(set: &mut IndexSet<Units>, names: &[Units]) -> Result<(), OutOfMemory>
    ensures { OnOk result (set.new.keys ≡ insert_all bytes_eq set.old.keys names.now) }
{
    let mut rest = names;
    while let [name, after @ ..] = rest {
        set.insert(name.clone()?)?;
        rest = after;
    }
    Ok(())
}

/// A table of these names.
pub fn name_table(alloc: Global, names: &[Units]) -> Result<IndexSet<Units>, OutOfMemory>
    ensures { IfOk result (λ table. (x : List ℕ) → contains bytes_eq table x
        ≡ spec.is_among x names.now) }
{
    let mut table = IndexSet::new(alloc);
    let mut rest = names;
    while let [name, after @ ..] = rest {
        table.insert(name.clone()?)?;
        rest = after;
    }
    Ok(table)
}

/// A table of the parameter of a catch clause alone.
pub fn parameter_table(alloc: Global, parameter: &Units) -> Result<IndexSet<Units>, OutOfMemory>
    ensures { IfOk result (λ table. (x : List ℕ) → contains bytes_eq table x
        ≡ spec.is_among x (parameter.now ∷ [])) }
{
    let mut names = IndexSet::new(alloc);
    names.insert(parameter.clone()?)?;
    Ok(names)
}

/// A table of the own name that the function may have, and of the other names that it binds.
pub fn bound_table(
    alloc: Global,
    own: &Option<Units>,
    code: &Code,
) -> Result<IndexSet<Units>, OutOfMemory>
    ensures { IfOk result (λ table. (x : List ℕ) → contains bytes_eq table x
        ≡ spec.is_among x (spec.maybe_name own.now ++ spec.bound_names code.now)) }
{
    let mut names = Vec::new(alloc);
    push_maybe_name(own, &mut names)?;
    push_bound_names(code, &mut names)?;
    name_table(alloc, names.as_slice())
}

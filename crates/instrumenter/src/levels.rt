//! The scopes round a piece of a script.

ghost use Rattle.std.specs.Prelude.{◌≡◌, [], ◌∷◌, ℕ, List, IfOk, bytes_eq, map};
ghost use Rattle.std.specs.Rc.{rc_value};
ghost use Rattle.indexmap.specs.IndexSet.{contains};
ghost use Rattle.scope_analysis.specs.Names.{is_among};
ghost use Rattle.instrumenter.specs.Around.{in_clause, in_function};
ghost use Rattle.instrumenter.specs.Levels as spec;
ghost use Rattle.instrumenter.specs.Levels.{around_of};

use indexmap::IndexSet;
use js_core::{Code, OutOfMemory, Units};
use scope_analysis::{bound_table, name_table, parameter_table};
use std::alloc::Global;
use std::rc::Rc;

/// A scope round a piece.
#[derive(Drop)]
pub struct Level {
    /// The names that it declares.
    pub names: IndexSet<Units>,
    /// Those of them that are fields of its object.
    pub fields: IndexSet<Units>,
    /// The number of its object.
    pub number: u64,
    /// It is a function, and no catch clause.
    pub is_function: bool,
}

/// The number of the object of which the name is a field. The scopes are gone over from the innermost outwards, which are at
/// most 200, since each is at least one level high.
pub fn field_of(levels: &[Rc<Level>], name: &Units) -> Option<u64>
    ensures { result ≡ spec.field_of (map rc_value levels.now) name.now }
{
    let mut rest = levels;
    while let [level, outer @ ..] = rest {
        if level.fields.contains(name) {
            return Some(level.number);
        }
        if level.names.contains(name) {
            return None;
        }
        rest = outer;
    }
    None
}

/// Whether a variable of that name is a field, which the innermost function declares.
pub fn is_own(levels: &[Rc<Level>], name: &Units) -> bool
    ensures { result ≡ spec.is_own (map rc_value levels.now) name.now }
{
    let mut rest = levels;
    while let [level, outer @ ..] = rest {
        if level.is_function {
            return level.fields.contains(name);
        }
        rest = outer;
    }
    false
}

/// The scopes round the body of a function that has these fields, in an object with this number.
pub fn in_function(
    alloc: Global,
    levels: &[Rc<Level>],
    number: u64,
    fields: &[Units],
    own: &Option<Units>,
    code: &Code,
) -> Result<Vec<Rc<Level>>, OutOfMemory>
    ensures { IfOk result (λ inner. around_of (map rc_value inner.items)
        ≡ in_function (around_of (map rc_value levels.now)) number fields.now own.now code.now) }
{
    let level = Level {
        names: bound_table(alloc, own, code)?,
        fields: name_table(alloc, fields)?,
        number,
        is_function: true,
    };
    inside(alloc, level, levels)
}

/// The scopes round the block of a catch clause with this parameter.
pub fn in_clause(
    alloc: Global,
    levels: &[Rc<Level>],
    number: u64,
    fields: &[Units],
    parameter: &Units,
) -> Result<Vec<Rc<Level>>, OutOfMemory>
    ensures { IfOk result (λ inner. around_of (map rc_value inner.items)
        ≡ in_clause (around_of (map rc_value levels.now)) number fields.now parameter.now) }
{
    let level = Level {
        names: parameter_table(alloc, parameter)?,
        fields: name_table(alloc, fields)?,
        number,
        is_function: false,
    };
    inside(alloc, level, levels)
}

// The scope, and those round it.
fn inside(alloc: Global, level: Level, levels: &[Rc<Level>]) -> Result<Vec<Rc<Level>>, OutOfMemory>
    ensures { IfOk result (λ inner. map rc_value inner.items ≡ level ∷ map rc_value levels.now) }
{
    let mut inner = Vec::new(alloc);
    inner.push(Rc::new(alloc, level)?)?;
    let mut rest = levels;
    while let [outer, after @ ..] = rest {
        inner.push(outer.clone()?)?;
        rest = after;
    }
    Ok(inner)
}

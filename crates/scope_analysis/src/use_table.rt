//! Tables of the uses of names: each name stands once, with what all uses of it do.

ghost use Rattle.std.specs.Prelude.{◌≡◌, ◌&&◌, not, ℕ, Bool, List, [], ◌∷◌, ◌++◌, true, false, bytes_eq, filter, IfOk, OnOk, is_some};
ghost use Rattle.std.specs.List.{list_any};
ghost use Rattle.std.specs.Map.{keys_of, lookup};
ghost use Rattle.indexmap.specs.IndexSet.{contains};
ghost use Rattle.scope_analysis.specs.Identifiers.{is_reserved};
ghost use Rattle.scope_analysis.specs.Names.{bound_names, maybe_name};
ghost use Rattle.scope_analysis.specs.UseTables.{joined, left_by, noted, table_of, uses_in, with_name};
ghost use Rattle.scope_analysis.specs.UseTables as spec;
ghost use Rattle.scope_analysis.specs.Uses.{Use};
ghost use Rattle.scope_analysis.specs.Uses as uses;

use crate::name_tables::{bound_table, parameter_table};
use crate::name_test::is_reserved;
use indexmap::{IndexMap, IndexSet};
use js_core::{Code, OutOfMemory, Units};
use std::alloc::Global;
use std::marker::Model;

/// What the uses of a name do.
#[derive(Clone, Copy, PartialEq, Eq)]
pub struct NameUses {
    /// One stands in a function inside the piece that is looked at.
    pub crosses: bool,
    /// One assigns to the name.
    pub assigns: bool,
    /// More than one does.
    pub again: bool,
}

impl NameUses {
    // These uses, and then others of the name.
    fn and_more(self, more: NameUses) -> NameUses
        ensures { result ≡ spec.and_more self more }
    {
        NameUses {
            crosses: self.crosses || more.crosses,
            assigns: self.assigns || more.assigns,
            again: (self.assigns && more.assigns) || (self.again || more.again),
        }
    }

    // Whether one assigns to the name, and no other does.
    fn is_once(self) -> bool
        ensures { result ≡ (self.assigns && not self.again) }
    {
        self.assigns && !self.again
    }

    // The uses, as they are seen from round a scope.
    fn seen_from(self, is_function: bool) -> NameUses
        ensures { result ≡ spec.seen_from is_function self }
    {
        NameUses {
            crosses: is_function || self.crosses,
            assigns: self.assigns,
            again: self.again,
        }
    }
}

/// The names that a piece uses, in the order in which it uses them, with what their uses do. Contracts see a list of pairs.
#[derive(Drop)]
pub struct UseTable {
    table: IndexMap<Units, NameUses>,
}

impl Model for UseTable {
    ghost use Rattle.scope_analysis.specs.UseTables.{Noted};

    ghost Value = { Noted };

    ghost view = { λ t. t.table.entries };
}

impl UseTable {
    /// No uses.
    pub fn new(alloc: Global) -> UseTable
        ensures { result ≡ [] }
    {
        UseTable {
            table: IndexMap::new(alloc),
        }
    }

    /// What its memory is of.
    pub fn alloc(&self) -> Global {
        *self.table.allocator()
    }

    // Uses of a name, behind those that are noted.
    #[tactic(auto, using(crate::proofs::UseTables::name_absent))]
    fn note(&mut self, name: &Units, more: NameUses) -> Result<(), OutOfMemory>
        ensures { OnOk result (self.new ≡ with_name self.old name.now more) }
    {
        if note_more(&mut self.table, name, more) {
            return Ok(());
        }
        self.table.insert(name.clone()?, more)?;
        Ok(())
    }

    /// Whether a function inside uses the name.
    pub fn is_captured(&self, name: &Units) -> bool
        ensures { (us : List Use) → self.now ≡ table_of us → result ≡ uses.is_captured name.now us }
    {
        self.uses_of(name).crosses
    }

    /// Whether the name is assigned to.
    pub fn is_assigned(&self, name: &Units) -> bool
        ensures { (us : List Use) → self.now ≡ table_of us → result ≡ uses.is_assigned name.now us }
    {
        self.uses_of(name).assigns
    }

    /// Whether the name is assigned to once.
    pub fn is_assigned_once(&self, name: &Units) -> bool
        ensures { (us : List Use) → self.now ≡ table_of us
            → result ≡ uses.is_assigned_once name.now us }
    {
        self.uses_of(name).is_once()
    }

    fn uses_of(&self, name: &Units) -> NameUses
        ensures { result ≡ uses_in self.now name.now }
    {
        match self.table.get(name) {
            Some(uses) => *uses,
            None => NameUses {
                crosses: false,
                assigns: false,
                again: false,
            },
        }
    }

    /// Whether a name that begins with `$$` is used.
    pub fn has_reserved_name(&self) -> bool
        ensures { result ≡ list_any is_reserved (keys_of self.now) }
    {
        for name in self.table.keys() {
            if is_reserved(name) {
                return true;
            }
        }
        false
    }

    /// The names that are used and begin with `$$`.
    pub fn reserved_names(&self, alloc: Global) -> Result<Vec<Units>, OutOfMemory>
        ensures { IfOk result (λ names. names.items ≡ filter is_reserved (keys_of self.now)) }
    {
        let mut names = Vec::new(alloc);
        for name in self.table.keys() {
            if is_reserved(name) {
                names.push(name.clone()?)?;
            }
        }
        Ok(names)
    }
}

// Whether the name is there; then these uses of it are noted.
fn note_more(table: &mut IndexMap<Units, NameUses>, name: &Units, more: NameUses) -> bool
    ensures there { result ≡ is_some (lookup (bytes_eq name.now) table.old.entries) }
    ensures noted { result ≡ true → table.new.entries ≡ with_name table.old.entries name.now more }
    ensures same { result ≡ false → table.new ≡ table.old }
{
    match table.get_mut(name) {
        Some(held) => {
            *held = held.and_more(more);
            true
        }
        None => false,
    }
}

/// Notes a use that no function stands round.
pub fn note_use(assigns: bool, name: &Units, out: &mut UseTable) -> Result<(), OutOfMemory>
    ensures { OnOk result (out.new ≡ noted out.old (uses.use_of assigns name.now ∷ [])) }
{
    let uses = NameUses {
        crosses: false,
        assigns,
        again: false,
    };
    out.note(name, uses)
}

/// Notes, of the uses of a function's body, those that the function leaves to the scopes round it, where this is the own
/// name that it may have.
pub fn note_leaving_function(
    own: &Option<Units>,
    code: &Code,
    inner: &UseTable,
    out: &mut UseTable,
) -> Result<(), OutOfMemory>
    ensures { (us : List Use) → inner.now ≡ table_of us → OnOk result (out.new ≡ noted out.old
        (uses.leaving_function (maybe_name own.now ++ bound_names code.now) us)) }
{
    let bound = bound_table(out.alloc(), own, code)?;
    note_left(true, &bound, inner, out)?;
    Ok(())
}

/// Notes, of the uses of a catch clause's block, those that are not of its parameter.
pub fn note_leaving_clause(
    parameter: &Units,
    inner: &UseTable,
    out: &mut UseTable,
) -> Result<(), OutOfMemory>
    ensures { (us : List Use) → inner.now ≡ table_of us → OnOk result
        (out.new ≡ noted out.old (uses.leaving_clause parameter.now us)) }
{
    let bound = parameter_table(out.alloc(), parameter)?;
    note_left(false, &bound, inner, out)?;
    Ok(())
}

// Notes the uses inside a scope of names that are not in the table.
fn note_left(
    is_function: bool,
    declared: &IndexSet<Units>,
    inner: &UseTable,
    out: &mut UseTable,
) -> Result<(), OutOfMemory>
    ensures { (declares : List ℕ → Bool) →
        ((x : List ℕ) → contains bytes_eq declared.now x ≡ declares x) → OnOk result
        (out.new ≡ joined out.old (left_by is_function declares inner.now)) }
{
    for (name, uses) in inner.table.iter() {
        if !declared.contains(name) {
            out.note(name, uses.seen_from(is_function))?;
        }
    }
    Ok(())
}

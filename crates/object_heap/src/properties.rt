//! The properties of an object, in order of creation.

ghost use Rattle.std.specs.Prelude.{◌≡◌, true, false, ◌++◌, ◌∷◌, [], None, IfOk, OnOk, OnErr, option_map, option_copied, slice_get, length, ◌≤◌, ◌<◌, IfSome, IsSome};
ghost use Rattle.std.specs.Option.{ForSome};
ghost use Rattle.object_heap.specs.Counted.{AreBelow, IsTaken, shrunk_props};
ghost use Rattle.object_heap.specs.Define.{end_kept, end_with, elements_below, is_below};
ghost use Rattle.object_heap.specs.Index.{index_end, index_of};
ghost use Rattle.std.specs.Map.{keys_of};
ghost use Rattle.std.specs.Map.Iter.{deref_pair};
ghost use Rattle.object_heap.specs.Property.{own_property, with_property, without_property, HasDistinctNames};

use crate::index::{array_index, index_name};
use crate::property::Prop;
use indexmap::IndexMap;
use js_core::{OutOfMemory, Units};
use std::alloc::Global;
use std::marker::Model;

/// The named properties of an object, in order of creation. Contracts see the list of names with properties. No two
/// have the same name.
pub struct Properties {
    table: IndexMap<Units, Prop>,
}

// A function of its own, so that the crates above cite it and do not prove it again.
impl Drop for Properties {
    fn drop(self) {
        let Properties { table: _table } = self;
    }
}

impl Model for Properties {
    ghost use Rattle.object_heap.specs.Property.{Props};

    ghost Value = { Props };

    ghost view = { λ p. p.table.entries };
}

impl Properties {
    /// No properties.
    pub fn new(alloc: Global) -> Properties
        ensures { result ≡ [] }
    {
        Properties {
            table: IndexMap::new(alloc),
        }
    }

    /// The property of the name, or `None` exactly where there is none (ECMA-262 5.1 section 8.12.1).
    pub fn get(&self, name: &Units) -> Option<&Prop>
        ensures { option_copied result ≡ own_property self.now name.now }
    {
        self.table.get(name)
    }

    /// The property whose name is this ASCII text, with the name, or `None` exactly where there is none. It is found at
    /// once where it is the first.
    pub(crate) fn find(&self, text: &[u8]) -> Option<(&Units, &Prop)>
        ensures prop { option_map (λ p. p.1.now) result ≡ own_property self.now text.now }
        ensures name { IfSome result (λ p. p.0.now ≡ text.now) }
    {
        for (name, prop) in self.table.iter() {
            if name.spells(text) {
                return Some((name, prop));
            }
        }
        None
    }

    /// The name and the property at the place, or `None` exactly past the end.
    pub(crate) fn get_index(&self, index: usize) -> Option<(&Units, &Prop)>
        ensures { option_map deref_pair result ≡ slice_get self.now index }
    {
        self.table.get_index(index)
    }

    /// The number of properties. No two have the same name.
    pub fn len(&self) -> usize
        ensures len { result ≡ length self.now }
        ensures distinct { HasDistinctNames self.now }
    {
        self.table.len()
    }

    /// One more property, which is the last. After an error nothing has changed.
    #[tactic(auto, using(crate::proofs::Entries::insert_absent))]
    pub fn push(&mut self, name: &Units, prop: Prop) -> Result<(), OutOfMemory>
        requires { own_property self.old name.now ≡ None }
        ensures ok { OnOk result (self.new ≡ self.old ++ (name.now, prop) ∷ []) }
        ensures err { OnErr result (self.new ≡ self.old) }
    {
        self.table.insert(name.clone()?, prop)?;
        Ok(())
    }

    /// The property of the name becomes another, at its place. Nothing changes where there is none.
    pub(crate) fn set(&mut self, name: &Units, prop: Prop)
        ensures { self.new ≡ with_property self.old name.now prop }
    {
        set_entry(&mut self.table, name, prop);
    }

    /// The property of the name is gone. The others keep their order. Nothing changes where there is none.
    pub(crate) fn remove(&mut self, name: &Units)
        ensures { self.new ≡ without_property self.old name.now }
    {
        self.table.shift_remove(name);
    }

    /// How far elements are deleted from the top when an array's length is to become `end`: down to the last one that
    /// is not configurable (ECMA-262 5.1 section 15.4.5.1 step 3.l).
    pub(crate) fn end_kept(&self, end: u64) -> u64
        requires { end ≤ index_end }
        ensures end { result ≡ end_kept end self.now }
        ensures small { end_kept end self.now ≤ index_end }
    {
        let mut kept = end;
        for (name, prop) in self.table.iter() {
            kept = end_with(kept, array_index(name), prop.configurable);
        }
        kept
    }

    /// Without the elements of an array from `end` up.
    pub(crate) fn keep_elements_below(&mut self, end: u64)
        ensures { self.new ≡ elements_below end self.old }
    {
        self.table.retain(
            |name, prop|
                ensures { (result ≡ is_below end (index_of name.now)) × (prop.new ≡ prop.old) }
            { is_below(end, array_index(name)) },
        );
    }

    /// Deletes the elements of an array from the top until its length is `end`, or down to the last one that is not
    /// configurable, and answers the length that is left (ECMA-262 5.1 section 15.4.5.1 step 3.l). Its length was `len`.
    /// Elements that were made last, or nearly so, go without a look at the others.
    pub(crate) fn delete_elements(&mut self, len: u64, end: u64) -> u64
        requires below { AreBelow len self.old }
        requires end { end ≤ len }
        requires small { len ≤ index_end }
        ensures kept { result ≡ end_kept end self.old }
        ensures props { self.new ≡ elements_below (end_kept end self.old) self.old }
        ensures small { result ≤ index_end }
    {
        if self.take_elements(len, end) == end {
            return end;
        }
        let kept = self.end_kept(end);
        self.keep_elements_below(kept);
        kept
    }

    // As far as the element at the top may be deleted, or is none, the top comes down, as long as no more properties move for
    // it than there are: then a look at all of them costs less. The length that is left.
    fn take_elements(&mut self, len: u64, end: u64) -> u64
        requires below { AreBelow len self.old }
        requires end { end ≤ len }
        requires small { len ≤ index_end }
        ensures same { shrunk_props end self.new ≡ shrunk_props end self.old }
        ensures below { AreBelow result self.new }
    {
        let mut top = len;
        let mut moves = self.len();
        while top > end {
            let _distinct = self.len();
            let index = top - 1;
            if !self.take_element(index, &mut moves) {
                break;
            }
            top = index;
        }
        top
    }

    // Whether it is known that there is no element of this index any more. One that may be deleted is gone, where no more
    // than `moves` properties move for it; its name takes memory.
    fn take_element(&mut self, index: u64, moves: &mut usize) -> bool
        ensures taken { result ≡ true → IsTaken index self.old self.new }
        ensures kept { result ≡ false → self.new ≡ self.old }
    {
        let Ok(name) = index_name(*self.table.allocator(), index) else {
            return false;
        };
        match self.moves_without(&name) {
            Some(count) if count <= *moves => *moves -= count,
            _ => return false,
        }
        self.remove(&name);
        true
    }

    // How many properties move when that of the name goes, which counts itself, as a name counts that is not there; `None`
    // where it may not be deleted.
    fn moves_without(&self, name: &Units) -> Option<usize>
        ensures { IsSome result → ForSome (own_property self.now name.now)
            (λ p. p.configurable ≡ true) }
    {
        match self.table.get_full(name) {
            Some((_, _, prop)) if !prop.configurable => None,
            Some((place, _, _)) => Some(self.table.len().saturating_sub(place)),
            None => Some(1),
        }
    }

    /// The names, in order. No two are the same.
    pub(crate) fn names(&self, alloc: Global) -> Result<Vec<Units>, OutOfMemory>
        ensures names { IfOk result (λ names. names.items ≡ keys_of self.now) }
        ensures distinct { HasDistinctNames self.now }
    {
        let mut names = Vec::new(alloc);
        for name in self.table.keys() {
            names.push(name.clone()?)?;
        }
        Ok(names)
    }
}

#[tactic(auto, using(crate::proofs::Entries::set_value_absent))]
fn set_entry(table: &mut IndexMap<Units, Prop>, name: &Units, prop: Prop)
    ensures { table.new.entries ≡ with_property table.old.entries name.now prop }
{
    match table.get_mut(name) {
        Some(held) => *held = prop,
        None => {}
    }
}

fn end_with(end: u64, index: Option<u64>, configurable: bool) -> u64
    requires end { end ≤ index_end }
    requires index { ForSome index (λ i. i < index_end) }
    ensures end { result ≡ end_with end index configurable }
    ensures small { result ≤ index_end }
{
    match index {
        Some(index) if !configurable => end.max(index + 1),
        _ => end,
    }
}

fn is_below(end: u64, index: Option<u64>) -> bool
    ensures { result ≡ is_below end index }
{
    match index {
        Some(index) => index < end,
        None => true,
    }
}

//! The attributes of an element, in order of first setting.

ghost use Rattle.std.specs.Prelude.{◌≡◌, [], OnOk, OnErr, option_map, option_copied, slice_get};
ghost use Rattle.std.specs.Map.Iter.{deref_pair};
ghost use Rattle.dom_tree.specs.Attributes.{value_of, with_value_of, without_value_of};
ghost use Rattle.dom_tree.specs.Name.{folded};

use crate::names::{fold, is_folded_to};
use js_core::{OutOfMemory, Units};
use std::alloc::Global;
use std::marker::Model;

/// Names with values, in order of first setting, which contracts see as the list of them. A call looks through them one by
/// one, since an element has few.
#[derive(Drop)]
pub struct Attributes {
    items: Vec<(Units, Units)>,
}

impl Model for Attributes {
    ghost use Rattle.std.specs.Prelude.{List, ℕ};

    ghost Value = { List (List ℕ × List ℕ) };

    ghost view = { λ a. a.items.items };
}

impl Attributes {
    /// No attributes.
    pub(crate) fn new(alloc: Global) -> Attributes
        ensures { result ≡ [] }
    {
        Attributes {
            items: Vec::new(alloc),
        }
    }

    /// The value of the attribute whose name is this one in lower case, or `None` exactly where there is none.
    #[tactic(auto, using(crate::proofs::Named::value_here, crate::proofs::Named::value_past))]
    pub fn get(&self, name: &Units) -> Option<&Units>
        ensures { option_copied result ≡ value_of (folded name.now) self.now }
    {
        for (known, value) in &self.items {
            if is_folded_to(name, known) {
                return Some(value);
            }
        }
        None
    }

    /// The value of the attribute whose name is this ASCII text, or `None` exactly where there is none.
    #[tactic(auto, using(crate::proofs::Named::value_here, crate::proofs::Named::value_past))]
    pub fn find(&self, name: &[u8]) -> Option<&Units>
        ensures { option_copied result ≡ value_of name.now self.now }
    {
        for (known, value) in &self.items {
            if known.spells(name) {
                return Some(value);
            }
        }
        None
    }

    /// The attribute at the place, or `None` exactly past the last.
    pub fn at(&self, index: usize) -> Option<(&Units, &Units)>
        ensures { option_map deref_pair result ≡ slice_get self.now index }
    {
        match self.items.get(index) {
            Some((name, value)) => Some((name, value)),
            None => None,
        }
    }

    /// The attributes, without memory.
    pub fn as_slice(&self) -> &[(Units, Units)]
        ensures { result.now ≡ self.now }
    {
        self.items.as_slice()
    }

    /// The attribute whose name is this one in lower case takes the value: one that is there keeps its place, and a new
    /// one is the last. After an error nothing has changed.
    pub(crate) fn set(&mut self, name: &Units, value: Units) -> Result<(), OutOfMemory>
        ensures ok { OnOk result (self.new ≡ with_value_of (folded name.now) value self.old) }
        ensures err { OnErr result (self.new ≡ self.old) }
    {
        for place in 0..self.items.len() {
            if is_folded_to(name, &self.items[place].0) {
                self.items[place].1 = value;
                return Ok(());
            }
        }
        let alloc = *self.items.allocator();
        let name = fold(alloc, name)?;
        self.items.push((name, value))?;
        Ok(())
    }

    /// The attribute whose name is this one in lower case is gone. The others keep their order. Nothing changes where there
    /// is none.
    pub(crate) fn remove(&mut self, name: &Units)
        ensures { self.new ≡ without_value_of (folded name.now) self.old }
    {
        for place in 0..self.items.len() {
            if is_folded_to(name, &self.items[place].0) {
                self.items.remove(place);
                return;
            }
        }
    }
}

//! What a loop over names visits (ECMA-262 5.1 section 12.6.4).

ghost use Rattle.std.specs.Prelude.{◌≡◌, ◌++◌, ◌<◌, [], IfOk, IfSome, List, OnOk, Some, map, ℕ};
ghost use Rattle.std.specs.Map.{keys_of};
ghost use Rattle.js_values.specs.declared.value.Value.TheVariants.{Text};
ghost use Rattle.object_heap.specs.Chain.{object_at};
ghost use Rattle.page_meaning.specs.Loops as spec;
ghost use Rattle.page_state.specs.Listing.{AlsoSeen, is_listed_at, is_seen_at, props_at, with_listed};

use crate::places::{BOOLEAN_PROTOTYPE, NUMBER_PROTOTYPE, STRING_PROTOTYPE};
use crate::state::State;
use indexmap::IndexSet;
use js_core::{OutOfMemory, Units, ascii_text};
use js_values::{ObjId, Value};
use object_heap::index_name;
use std::alloc::Global;

impl State {
    /// The names that a for-in over the value visits, each with the object that has it, and with none where it is that of a
    /// unit of a text (section 12.6.4). A name that a nearer object has is found in a table, so the work is in proportion to
    /// the number of properties up the chain.
    pub fn listed_of(&self, value: &Value) -> Result<Vec<(Option<ObjId>, Units)>, OutOfMemory>
        ensures { IfOk result (λ names. names.items ≡ spec.listed_of self.now value.now) }
    {
        match value {
            Value::Object(at) => self.listed_up(*at),
            Value::Bool(_) => self.listed_up(BOOLEAN_PROTOTYPE),
            Value::Num(_) => self.listed_up(NUMBER_PROTOTYPE),
            Value::Text(text) => self.listed_of_text(text),
            Value::Undefined | Value::Null => Ok(Vec::new(self.alloc())),
        }
    }

    // The units of a text, and the enumerable names that it inherits.
    fn listed_of_text(&self, text: &Units) -> Result<Vec<(Option<ObjId>, Units)>, OutOfMemory>
        ensures { IfOk result (λ names. names.items ≡ spec.listed_of self.now (Text text.now)) }
    {
        let mut names = unit_names(self.alloc(), text.as_slice())?;
        let mut seen = IndexSet::new(self.alloc());
        seen.insert(ascii_text(self.alloc(), b"length")?)?;
        add_units(names.as_slice(), &mut seen)?;
        self.push_up(STRING_PROTOTYPE, seen, &mut names)?;
        Ok(names)
    }

    // The enumerable names of an object and of those that it inherits from.
    fn listed_up(&self, from: ObjId) -> Result<Vec<(Option<ObjId>, Units)>, OutOfMemory>
        ensures { IfOk result (λ names. names.items ≡ spec.listed_up self.now [] (Some from)) }
    {
        let mut names = Vec::new(self.alloc());
        self.push_up(from, IndexSet::new(self.alloc()), &mut names)?;
        Ok(names)
    }

    // The same behind other names, which were seen.
    fn push_up(
        &self,
        from: ObjId,
        seen: IndexSet<Units>,
        names: &mut Vec<(Option<ObjId>, Units)>,
    ) -> Result<(), OutOfMemory>
        ensures { (before : List (List ℕ)) → AlsoSeen [] before seen.keys →
            OnOk result
            (names.new.items ≡ names.old.items ++ spec.listed_up self.now before (Some from)) }
    {
        let mut seen = seen;
        let mut next = Some(from);
        while let Some(at) = next {
            let keys = self.own_keys(at)?;
            self.push_own(at, keys.as_slice(), &seen, names)?;
            add_seen(keys.as_slice(), &mut seen)?;
            next = self.older_proto(at);
        }
        Ok(())
    }

    // An object's own enumerable names that were not seen. These are all its own names.
    fn push_own(
        &self,
        at: ObjId,
        keys: &[Units],
        seen: &IndexSet<Units>,
        names: &mut Vec<(Option<ObjId>, Units)>,
    ) -> Result<(), OutOfMemory>
        requires { keys.now ≡ keys_of (props_at self.now at) }
        ensures { OnOk result (names.new.items ≡ names.old.items
            ++ spec.listed_own at seen.now.keys (props_at self.now at)) }
    {
        for (place, name) in keys.iter().enumerate() {
            self.push_listed(at, place as u64, name, seen, names)?;
        }
        Ok(())
    }

    // An object's own property at a place in order of creation, whose name this is, is listed or not.
    fn push_listed(
        &self,
        at: ObjId,
        place: u64,
        name: &Units,
        seen: &IndexSet<Units>,
        names: &mut Vec<(Option<ObjId>, Units)>,
    ) -> Result<(), OutOfMemory>
        ensures { OnOk result (names.new.items
            ≡ with_listed (is_listed_at (props_at self.now at) place name.now seen.now.keys) at
            name.now names.old.items) }
    {
        if !self.is_listed(at, place, name, seen) {
            return Ok(());
        }
        names.push((Some(at), name.clone()?))?;
        Ok(())
    }

    // Whether it is enumerable and was not seen.
    fn is_listed(&self, at: ObjId, place: u64, name: &Units, seen: &IndexSet<Units>) -> bool
        ensures { result ≡ is_listed_at (props_at self.now at) place name.now seen.now.keys }
    {
        self.is_enumerable_at(at, place) && !seen.contains(name)
    }

    // Whether an object's own property at a place is enumerable.
    fn is_enumerable_at(&self, at: ObjId, place: u64) -> bool
        ensures { result ≡ is_seen_at (props_at self.now at) place }
    {
        match self.own_at(at, place) {
            Some((_, prop)) => prop.enumerable,
            None => false,
        }
    }

    // The prototype of an object, which is older.
    fn older_proto(&self, at: ObjId) -> Option<ObjId>
        ensures proto { result ≡ (object_at self.now.heap.objects at.0).proto }
        ensures older { IfSome result (λ p. p.0 < at.0) }
    {
        self.heap.proto(at)
    }

    /// Whether the holder of a name still has it; a unit of a text stays.
    pub fn is_held(&self, holder: Option<ObjId>, name: &Units) -> bool
        ensures { result ≡ spec.is_held holder name.now self.now }
    {
        match holder {
            None => true,
            Some(at) => self.own(at, name).is_some(),
        }
    }
}

// These names were seen, too.
fn add_seen(keys: &[Units], seen: &mut IndexSet<Units>) -> Result<(), OutOfMemory>
    ensures { OnOk result (AlsoSeen seen.old.keys keys.now seen.new.keys) }
{
    for name in keys {
        seen.insert(name.clone()?)?;
    }
    Ok(())
}

// These names of units were seen, too.
fn add_units(
    names: &[(Option<ObjId>, Units)],
    seen: &mut IndexSet<Units>,
) -> Result<(), OutOfMemory>
    ensures { OnOk result
        (AlsoSeen seen.old.keys (map (λ p. p.1) names.now) seen.new.keys) }
{
    for (_, name) in names {
        seen.insert(name.clone()?)?;
    }
    Ok(())
}

// The names of the units of a text: their places.
fn unit_names(alloc: Global, units: &[u16]) -> Result<Vec<(Option<ObjId>, Units)>, OutOfMemory>
    ensures { IfOk result (λ names. names.items ≡ spec.unit_names 0 units.now) }
{
    let mut names = Vec::new(alloc);
    for place in 0..units.len() {
        let name = index_name(alloc, place as u64)?;
        names.push((None, name))?;
    }
    Ok(names)
}

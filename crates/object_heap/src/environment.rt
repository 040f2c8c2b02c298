//! Environments: the names that a function, a catch clause or a named function expression binds (ECMA-262 5.1 section 10.2).

ghost use Rattle.std.specs.Prelude.{◌≡◌, ◌<◌, IfSome, Some, length, option_map};
ghost use Rattle.object_heap.specs.Heap.{lookup};
ghost use Rattle.std.specs.Option.{option_copied};
ghost use Rattle.object_heap.specs.Environment.{AreInside, environment_at, inside, new_environment, value_of, with_bound, with_value_of};

use js_core::Units;
use js_values::{EnvId, Value};
use std::marker::Model;

/// Names with values, in order, which contracts see as the list of them.
pub struct Bindings {
    items: Vec<(Units, Value)>,
}

// A function of its own, so that the crates above cite it and do not prove it again.
impl Drop for Bindings {
    fn drop(self) {
        let Bindings { items: _items } = self;
    }
}

impl Model for Bindings {
    ghost use Rattle.object_heap.specs.Environment.{Bound};

    ghost Value = { Bound };

    ghost view = { λ b. b.items.items };
}

/// An environment: its names with their values, and the environment round it, if any, which is older.
pub struct Environment {
    outer: Option<EnvId>,
    names: Bindings,
}

// A function of its own, so that the crates above cite it and do not prove it again.
impl Drop for Environment {
    fn drop(self) {
        let Environment {
            outer: _outer,
            names: _names,
        } = self;
    }
}

impl Model for Environment {
    ghost use Rattle.object_heap.specs.Environment as pure;

    ghost Value = { pure.Environment };

    ghost view = { λ e. record {
      outer = e.outer;
      names = e.names;
    } };
}

impl Environment {
    /// An environment with these names, inside another one, if any.
    pub(crate) fn new(outer: Option<EnvId>, names: Bindings) -> Environment
        ensures { result ≡ new_environment outer names }
    {
        Environment { outer, names }
    }

    /// The environment round it.
    pub(crate) fn outer(&self) -> Option<EnvId>
        ensures { result ≡ self.now.outer }
    {
        self.outer
    }

    /// The value of the name, or `None` exactly where it is not bound here.
    pub(crate) fn get(&self, name: &Units) -> Option<&Value>
        ensures { option_copied result ≡ value_of self.now.names name.now }
    {
        self.names.get(name)
    }

    /// The name takes the value. All else stays, and all stays where the name is not there.
    pub(crate) fn set(&mut self, name: &Units, value: Value)
        ensures { self.new ≡ with_bound self.old name.now value }
    {
        self.names.set(name, value);
    }
}

/// The environment, where it is older than the place.
pub(crate) fn inside(outer: Option<EnvId>, at: u64) -> Option<EnvId>
    ensures { result ≡ inside at outer }
{
    match outer {
        Some(outer) if outer.0 < at => Some(outer),
        _ => None,
    }
}

impl Bindings {
    /// These names with these values. Nothing is copied.
    pub(crate) fn of(items: Vec<(Units, Value)>) -> Bindings
        ensures { result ≡ items.items }
    {
        Bindings { items }
    }

    /// The value of the name, or `None` exactly where it is not there. Of two bindings of one name the first counts.
    #[tactic(auto, using(crate::proofs::Bindings::value_here, crate::proofs::Bindings::value_past))]
    pub(crate) fn get(&self, name: &Units) -> Option<&Value>
        ensures { option_copied result ≡ value_of self.now name.now }
    {
        for (bound, value) in &self.items {
            if name == bound {
                return Some(value);
            }
        }
        None
    }

    /// The name takes the value. All else stays, and all stays where the name is not there.
    pub(crate) fn set(&mut self, name: &Units, value: Value)
        ensures { self.new ≡ with_value_of self.old name.now value }
    {
        for place in 0..self.items.len() {
            if *name == self.items[place].0 {
                self.items[place].1 = value;
                return;
            }
        }
    }
}

/// The innermost environment from this one outwards that has the name, with the value, or `None` exactly where none has
/// it (ECMA-262 5.1 section 10.2.2.1).
#[tactic(auto, using(crate::proofs::Scopes::step))]
pub(crate) fn lookup<'a>(
    environments: &'a [Environment],
    from: EnvId,
    name: &Units,
) -> Option<(EnvId, &'a Value)>
    requires ages { AreInside environments.now }
    requires there { from.0 < length environments.now }
    ensures found { option_map (λ found. (found.0, found.1.now)) result
        ≡ lookup environments.now from.0 name.now }
    ensures there { IfSome result (λ found. found.0.0 < length environments.now) }
    ensures bound { IfSome result (λ found. value_of
        (environment_at environments.now found.0.0).names name.now ≡ Some found.1.now) }
{
    let mut at = from;
    loop {
        let environment = &environments[at.0 as usize];
        if let Some(value) = environment.get(name) {
            return Some((at, value));
        }
        let Some(outer) = environment.outer() else {
            return None;
        };
        at = outer;
    }
}

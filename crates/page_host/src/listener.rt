//! Listeners.

ghost use Rattle.std.specs.Prelude.{◌≡◌, IfOk};
ghost use Rattle.std.specs.Cmp.{partial_equiv_from_equiv};
ghost use Rattle.page_host.specs.Listeners.{is_same_listener, is_taken_in, same_mark, takes};
ghost use Rattle.page_host.specs.Same.{same_equivalence};

use crate::path::{Phase, Place};
use js_core::{OutOfMemory, Units};
use js_values::{NodeId, ObjId};

/// A function that is called for events of a type at a node (DOM Level 2 Events, interface EventTarget). Two are equal where they are
/// the same registration.
#[derive(Hash, Drop)]
pub struct Listener {
    pub node: NodeId,
    pub kind: Units,
    pub call: ObjId,
    /// It runs on the way down to the target, and else at the target and on the way up.
    pub capture: bool,
}

impl PartialEq for Listener {
    ghost eq = { is_same_listener };

    ghost laws = { partial_equiv_from_equiv same_equivalence };

    fn eq(&self, other: &Listener) -> bool {
        self.node.0 == other.node.0
            && self.call.0 == other.call.0
            && same_mark(self.capture, other.capture)
            && self.kind == other.kind
    }
}

impl Eq for Listener {
    ghost laws = { same_equivalence };
}

impl Listener {
    /// Whether it is called at the place for an event of the type.
    pub(crate) fn is_taken(&self, kind: &Units, place: Place) -> bool
        ensures { result ≡ takes kind.now place self.now }
    {
        self.node.0 == place.node.0 && self.kind == *kind && is_taken_in(place.phase, self.capture)
    }

    /// The same again. The type shares its units.
    pub fn clone(&self) -> Result<Listener, OutOfMemory>
        ensures { IfOk result (λ l. l ≡ self.now) }
    {
        Ok(Listener {
            node: self.node,
            kind: self.kind.clone()?,
            call: self.call,
            capture: self.capture,
        })
    }
}

// Whether both are set, or neither.
fn same_mark(one: bool, other: bool) -> bool
    ensures { result ≡ same_mark one other }
{
    if one { other } else { !other }
}

// Whether listeners that capture, or those that do not, are called in the phase.
fn is_taken_in(phase: Phase, capture: bool) -> bool
    ensures { result ≡ is_taken_in phase capture }
{
    match phase {
        Phase::Capturing => capture,
        Phase::AtTarget | Phase::Bubbling => !capture,
    }
}

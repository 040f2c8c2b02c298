//! What is left of a dispatch: the listeners of a place, and the places after it.

ghost use Rattle.std.specs.Prelude.{◌≡◌, ◌<◌, ◌^◌, ◌∷◌, [], IfNone, IfSome, length, reverse};

use page_host::{Listener, Place};
use std::marker::Model;

/// The listeners that are left at a place. Contracts see them in order.
pub struct Round {
    // The next is the last.
    listeners: Vec<Listener>,
}

// A function of its own, so that the crates above cite it and do not prove it again.
impl Drop for Round {
    fn drop(self) {
        let Round {
            listeners: _listeners,
        } = self;
    }
}

impl Model for Round {
    ghost use Rattle.std.specs.Prelude.{List, reverse};
    ghost use Rattle.page_host.specs.declared.listener.Listener.{Listener as OneListener};

    ghost Value = { List OneListener };

    ghost view = { λ r. reverse r.listeners.items };
}

impl Round {
    /// These listeners.
    pub fn of(listeners: Vec<Listener>) -> Round
        ensures same { result ≡ listeners.items }
        ensures few { length result < 2 ^ 64 }
    {
        let _count = listeners.len();
        let mut listeners = listeners;
        listeners.reverse();
        Round { listeners }
    }

    /// The next listener, or `None` exactly where none is left. Takes no memory.
    pub fn pop(&mut self) -> Option<Listener>
        ensures some { IfSome result (λ l. self.old ≡ l ∷ self.new) }
        ensures none { IfNone result (self.old ≡ []) }
    {
        self.listeners.pop()
    }
}

/// The places that are left on the way of an event. Contracts see them in order.
pub struct Places {
    // The next is the last.
    places: Vec<Place>,
}

// A function of its own, so that the crates above cite it and do not prove it again.
impl Drop for Places {
    fn drop(self) {
        let Places { places: _places } = self;
    }
}

impl Model for Places {
    ghost use Rattle.std.specs.Prelude.{List, reverse};
    ghost use Rattle.page_host.specs.declared.path.Place.{Place as OnePlace};

    ghost Value = { List OnePlace };

    ghost view = { λ p. reverse p.places.items };
}

impl Places {
    /// These places.
    pub fn of(places: Vec<Place>) -> Places
        ensures same { result ≡ places.items }
        ensures few { length result < 2 ^ 64 }
    {
        let _count = places.len();
        let mut places = places;
        places.reverse();
        Places { places }
    }

    /// The next place, or `None` exactly where none is left. Takes no memory.
    pub fn pop(&mut self) -> Option<Place>
        ensures some { IfSome result (λ p. self.old ≡ p ∷ self.new) }
        ensures none { IfNone result (self.old ≡ []) }
    {
        self.places.pop()
    }
}

//! The kinds of items, and their keys.

ghost use Rattle.std.specs.Prelude.{◌≡◌};
ghost use Rattle.serde_json.specs.Data.{object};
ghost use Rattle.serde_json.specs.View.{view, members_view};
ghost use Rattle.event_file.specs.Kinds as spec;

use serde_json::{Map, Value};

/// The kind of an item, which one of its keys tells.
#[derive(Clone, Copy, PartialEq, Eq)]
pub enum Kind {
    Fire,
    Input,
    Tick,
    Call,
    Dom,
}

impl Kind {
    /// The kind of an item, by the key that no other kind has.
    pub fn of_item(item: &Value) -> Option<Kind>
        ensures { result ≡ spec.kind_of (view item.now) }
    {
        if item.get("fire").is_some() {
            Some(Kind::Fire)
        } else if item.get("input").is_some() {
            Some(Kind::Input)
        } else if item.get("tick").is_some() {
            Some(Kind::Tick)
        } else if item.get("call").is_some() {
            Some(Kind::Call)
        } else if item.get("dom").is_some() {
            Some(Kind::Dom)
        } else {
            None
        }
    }

    // Whether an item of this kind may have this key.
    fn may_have(self, key: &str) -> bool
        ensures { result ≡ spec.is_key_of self key.now }
    {
        match self {
            Kind::Fire => matches!(key, "fire" | "at" | "bubbles" | "cancelable"),
            Kind::Input => matches!(key, "input" | "at"),
            Kind::Tick => key == "tick",
            Kind::Call => key == "call",
            Kind::Dom => key == "dom",
        }
    }

    // Whether an item of this kind may have the keys of these members.
    fn may_have_all(self, members: &Map<String, Value>) -> bool
        ensures { result ≡ spec.has_only_keys_of self (object (members_view members.now.entries)) }
    {
        for key in members.keys() {
            if !self.may_have(key.as_str()) {
                return false;
            }
        }
        true
    }

    /// Whether a value is an object that has no other keys than an item of this kind may have.
    pub fn has_the_keys_of(self, item: &Value) -> bool
        ensures { result ≡ spec.has_only_keys_of self (view item.now) }
    {
        match item.as_object() {
            Some(members) => self.may_have_all(members),
            None => false,
        }
    }
}

//! Chains of prototypes.

ghost use Rattle.std.specs.Prelude.{◌≡◌, ◌<◌, length};
ghost use Rattle.std.specs.Option.{option_copied};
ghost use Rattle.object_heap.specs.Chain.{AreOlder, can_put, get_property};

use crate::object::Object;
use crate::property::Prop;
use js_core::Units;
use js_values::ObjId;

/// The property of the name that the object has, or else its prototype, and so on (ECMA-262 5.1 section 8.12.2).
#[tactic(auto, using(crate::proofs::Chains::step))]
pub(crate) fn get_property<'a>(objects: &'a [Object], at: ObjId, name: &Units) -> Option<&'a Prop>
    requires ages { AreOlder objects.now }
    requires there { at.0 < length objects.now }
    ensures { option_copied result ≡ get_property objects.now at.0 name.now }
{
    let mut at = at;
    loop {
        let object = &objects[at.0 as usize];
        if let Some(prop) = object.own(name) {
            return Some(prop);
        }
        let Some(proto) = object.proto() else {
            return None;
        };
        at = proto;
    }
}

/// Whether the object may have a value put to its property of the name (ECMA-262 5.1 section 8.12.4).
#[tactic(auto, unfolding(crate::specs::Chain::can_put))]
pub(crate) fn can_put(objects: &[Object], at: ObjId, name: &Units) -> bool
    requires ages { AreOlder objects.now }
    requires there { at.0 < length objects.now }
    ensures { result ≡ can_put objects.now at.0 name.now }
{
    let object = &objects[at.0 as usize];
    if let Some(prop) = object.own(name) {
        return prop.writable;
    }
    let Some(proto) = object.proto() else {
        return object.is_extensible();
    };
    match get_property(objects, proto, name) {
        Some(inherited) => object.is_extensible() && inherited.writable,
        None => object.is_extensible(),
    }
}

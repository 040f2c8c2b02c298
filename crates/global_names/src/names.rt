//! The names of the global object's built-in properties.

ghost use Rattle.std.specs.Prelude.{◌≡◌, ◌↔◌, IsTrue};
ghost use Rattle.global_names.specs.Names.{IsGlobalName, names_global};

use js_core::Units;

const GLOBAL_NAMES: [&[u8]; 27] = [
    b"window",
    b"document",
    b"console",
    b"alert",
    b"setTimeout",
    b"setInterval",
    b"setIntervalFrom",
    b"clearTimeout",
    b"clearInterval",
    b"Object",
    b"Function",
    b"Array",
    b"String",
    b"Number",
    b"Boolean",
    b"Math",
    b"Error",
    b"TypeError",
    b"RangeError",
    b"ReferenceError",
    b"Node",
    b"Event",
    b"isNaN",
    b"isFinite",
    b"parseInt",
    b"undefined",
    b"NaN",
];

/// Whether the name is one of the built-in global names (ECMA-262 5.1 section 15.1 and the host's).
pub fn is_global_name(name: &Units) -> bool
    ensures value { result ≡ names_global name.now }
    ensures member { IsTrue result ↔ IsGlobalName name.now }
{
    name.is_among(&GLOBAL_NAMES)
}

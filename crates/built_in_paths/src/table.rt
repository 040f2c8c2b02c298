//! The path of each built-in object.

ghost use Rattle.std.specs.Prelude.{◌≡◌, map, option_copied, slice_get};
ghost use Rattle.built_in_paths.specs.Paths.{path_of};

use js_values::ObjId;

/// All paths, in the order of the objects' places, by families as the built-in objects.
const PATHS: [&[u8]; 122] = [
    // the global object, and the two prototypes that stand before the others
    b"window",
    b"Object.prototype",
    b"Function.prototype",
    // the host
    b"console",
    b"console.log",
    b"alert",
    // timers
    b"setTimeout",
    b"setInterval",
    b"setIntervalFrom",
    b"clearTimeout",
    b"clearInterval",
    // `Object`
    b"Object",
    b"Object.prototype.toString",
    b"Object.prototype.valueOf",
    b"Object.prototype.hasOwnProperty",
    b"Object.prototype.isPrototypeOf",
    b"Object.prototype.propertyIsEnumerable",
    b"Object.getPrototypeOf",
    b"Object.getOwnPropertyDescriptor",
    b"Object.getOwnPropertyNames",
    b"Object.create",
    b"Object.defineProperty",
    b"Object.defineProperties",
    b"Object.seal",
    b"Object.freeze",
    b"Object.preventExtensions",
    b"Object.isSealed",
    b"Object.isFrozen",
    b"Object.isExtensible",
    b"Object.keys",
    // `Function`
    b"Function",
    b"Function.prototype.call",
    b"Function.prototype.apply",
    b"Function.prototype.bind",
    // `Array`
    b"Array",
    b"Array.prototype",
    b"Array.prototype.toString",
    b"Array.prototype.concat",
    b"Array.prototype.join",
    b"Array.prototype.pop",
    b"Array.prototype.push",
    b"Array.prototype.reverse",
    b"Array.prototype.shift",
    b"Array.prototype.slice",
    b"Array.prototype.splice",
    b"Array.prototype.unshift",
    b"Array.prototype.indexOf",
    b"Array.prototype.lastIndexOf",
    b"Array.prototype.every",
    b"Array.prototype.some",
    b"Array.prototype.forEach",
    b"Array.prototype.map",
    b"Array.prototype.filter",
    b"Array.prototype.reduce",
    b"Array.isArray",
    // `String`
    b"String",
    b"String.prototype",
    b"String.prototype.toString",
    b"String.prototype.valueOf",
    b"String.prototype.charAt",
    b"String.prototype.charCodeAt",
    b"String.prototype.concat",
    b"String.prototype.indexOf",
    b"String.prototype.lastIndexOf",
    b"String.prototype.slice",
    b"String.prototype.split",
    b"String.prototype.substring",
    b"String.prototype.toLowerCase",
    b"String.prototype.toUpperCase",
    b"String.prototype.trim",
    b"String.fromCharCode",
    // `Number`
    b"Number",
    b"Number.prototype",
    b"Number.prototype.toString",
    b"Number.prototype.valueOf",
    // `Boolean`
    b"Boolean",
    b"Boolean.prototype",
    b"Boolean.prototype.toString",
    b"Boolean.prototype.valueOf",
    // `Math`
    b"Math",
    b"Math.abs",
    b"Math.ceil",
    b"Math.floor",
    b"Math.max",
    b"Math.min",
    b"Math.pow",
    b"Math.round",
    // errors
    b"Error",
    b"Error.prototype",
    b"TypeError",
    b"TypeError.prototype",
    b"RangeError",
    b"RangeError.prototype",
    b"ReferenceError",
    b"ReferenceError.prototype",
    // nodes and events
    b"Node",
    b"Node.prototype",
    b"Node.prototype.insertBefore",
    b"Node.prototype.replaceChild",
    b"Node.prototype.removeChild",
    b"Node.prototype.appendChild",
    b"Node.prototype.hasChildNodes",
    b"Node.prototype.getAttribute",
    b"Node.prototype.setAttribute",
    b"Node.prototype.removeAttribute",
    b"Node.prototype.hasAttribute",
    b"Node.prototype.addEventListener",
    b"Node.prototype.removeEventListener",
    b"Node.prototype.dispatchEvent",
    b"Node.prototype.getElementById",
    b"Node.prototype.createElement",
    b"Node.prototype.createTextNode",
    b"Node.prototype.createComment",
    b"Node.prototype.createEvent",
    b"Event",
    b"Event.prototype",
    b"Event.prototype.initEvent",
    b"Event.prototype.stopPropagation",
    b"Event.prototype.preventDefault",
    // functions of the global object
    b"isNaN",
    b"isFinite",
    b"parseInt",
];

/// The path of names by which a script reaches the built-in object (ECMA-262 5.1 section 15; DOM
/// Level 2 Core and Events; HTML, timers), as `Array.prototype.slice`, or `None`
/// exactly where the id is no built-in object's. It takes no memory.
pub fn path(at: ObjId) -> Option<&'static [u8]>
    ensures { option_copied result ≡ path_of at.0 }
{
    text_at(&PATHS, at.0)
}

/// The text that the table has at the place, if it has one there.
fn text_at(table: &[&'static [u8]], k: u64) -> Option<&'static [u8]>
    ensures { option_copied result ≡ slice_get (map (λ text. text.now) table.now) k }
{
    table.get(k as usize).copied()
}

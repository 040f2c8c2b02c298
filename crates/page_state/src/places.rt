//! The places of the built-in objects that a page begins with.

ghost use Rattle.std.specs.Prelude.{◌≡◌, ◌≤◌};
ghost use Rattle.page_meaning.specs.Places as spec;

use js_values::{BuiltIn, ObjId};

/// The global object.
pub const WINDOW: ObjId = ObjId(0);
/// `Object.prototype`
pub const OBJECT_PROTOTYPE: ObjId = ObjId(1);
/// `Function.prototype`
pub const FUNCTION_PROTOTYPE: ObjId = ObjId(2);
/// `console`
pub const CONSOLE: ObjId = ObjId(3);
/// `Array.prototype`
pub const ARRAY_PROTOTYPE: ObjId = ObjId(35);
/// `String.prototype`
pub const STRING_PROTOTYPE: ObjId = ObjId(56);
/// `Number.prototype`
pub const NUMBER_PROTOTYPE: ObjId = ObjId(72);
/// `Boolean.prototype`
pub const BOOLEAN_PROTOTYPE: ObjId = ObjId(76);
/// `Math`
pub const MATH: ObjId = ObjId(79);
/// `Node.prototype`
pub const NODE_PROTOTYPE: ObjId = ObjId(96);
/// `Event.prototype`
pub const EVENT_PROTOTYPE: ObjId = ObjId(115);
/// The object of the document, which is no built-in object: the first after them.
pub const DOCUMENT: ObjId = ObjId(122);

/// The place of a built-in function.
#[tactic(auto, unfolding(page_meaning::specs::Places::function_place))]
pub fn function_place(which: BuiltIn) -> u64
    ensures { result ≡ spec.function_place which }
{
    match which {
        BuiltIn::FunctionPrototype => 2,
        BuiltIn::ConsoleLog => 4,
        BuiltIn::Alert => 5,
        BuiltIn::SetTimeout => 6,
        BuiltIn::SetInterval => 7,
        BuiltIn::SetIntervalFrom => 8,
        BuiltIn::ClearTimeout => 9,
        BuiltIn::ClearInterval => 10,
        BuiltIn::Object => 11,
        BuiltIn::ObjectPrototypeToString => 12,
        BuiltIn::ObjectPrototypeValueOf => 13,
        BuiltIn::ObjectPrototypeHasOwnProperty => 14,
        BuiltIn::ObjectPrototypeIsPrototypeOf => 15,
        BuiltIn::ObjectPrototypePropertyIsEnumerable => 16,
        BuiltIn::ObjectGetPrototypeOf => 17,
        BuiltIn::ObjectGetOwnPropertyDescriptor => 18,
        BuiltIn::ObjectGetOwnPropertyNames => 19,
        BuiltIn::ObjectCreate => 20,
        BuiltIn::ObjectDefineProperty => 21,
        BuiltIn::ObjectDefineProperties => 22,
        BuiltIn::ObjectSeal => 23,
        BuiltIn::ObjectFreeze => 24,
        BuiltIn::ObjectPreventExtensions => 25,
        BuiltIn::ObjectIsSealed => 26,
        BuiltIn::ObjectIsFrozen => 27,
        BuiltIn::ObjectIsExtensible => 28,
        BuiltIn::ObjectKeys => 29,
        BuiltIn::Function => 30,
        BuiltIn::FunctionPrototypeCall => 31,
        BuiltIn::FunctionPrototypeApply => 32,
        BuiltIn::FunctionPrototypeBind => 33,
        _ => array_function_place(which),
    }
}

// Those of Array.
#[tactic(auto, unfolding(page_meaning::specs::Places::function_place))]
fn array_function_place(which: BuiltIn) -> u64
    requires { 34 ≤ spec.function_place which }
    ensures { result ≡ spec.function_place which }
{
    match which {
        BuiltIn::Array => 34,
        BuiltIn::ArrayPrototypeToString => 36,
        BuiltIn::ArrayPrototypeConcat => 37,
        BuiltIn::ArrayPrototypeJoin => 38,
        BuiltIn::ArrayPrototypePop => 39,
        BuiltIn::ArrayPrototypePush => 40,
        BuiltIn::ArrayPrototypeReverse => 41,
        BuiltIn::ArrayPrototypeShift => 42,
        BuiltIn::ArrayPrototypeSlice => 43,
        BuiltIn::ArrayPrototypeSplice => 44,
        BuiltIn::ArrayPrototypeUnshift => 45,
        BuiltIn::ArrayPrototypeIndexOf => 46,
        BuiltIn::ArrayPrototypeLastIndexOf => 47,
        BuiltIn::ArrayPrototypeEvery => 48,
        BuiltIn::ArrayPrototypeSome => 49,
        BuiltIn::ArrayPrototypeForEach => 50,
        BuiltIn::ArrayPrototypeMap => 51,
        BuiltIn::ArrayPrototypeFilter => 52,
        BuiltIn::ArrayPrototypeReduce => 53,
        BuiltIn::ArrayIsArray => 54,
        _ => value_function_place(which),
    }
}

// Those of String, Number and Boolean.
#[tactic(auto, unfolding(page_meaning::specs::Places::function_place))]
fn value_function_place(which: BuiltIn) -> u64
    requires { 55 ≤ spec.function_place which }
    ensures { result ≡ spec.function_place which }
{
    match which {
        BuiltIn::String => 55,
        BuiltIn::StringPrototypeToString => 57,
        BuiltIn::StringPrototypeValueOf => 58,
        BuiltIn::StringPrototypeCharAt => 59,
        BuiltIn::StringPrototypeCharCodeAt => 60,
        BuiltIn::StringPrototypeConcat => 61,
        BuiltIn::StringPrototypeIndexOf => 62,
        BuiltIn::StringPrototypeLastIndexOf => 63,
        BuiltIn::StringPrototypeSlice => 64,
        BuiltIn::StringPrototypeSplit => 65,
        BuiltIn::StringPrototypeSubstring => 66,
        BuiltIn::StringPrototypeToLowerCase => 67,
        BuiltIn::StringPrototypeToUpperCase => 68,
        BuiltIn::StringPrototypeTrim => 69,
        BuiltIn::StringFromCharCode => 70,
        BuiltIn::Number => 71,
        BuiltIn::NumberPrototypeToString => 73,
        BuiltIn::NumberPrototypeValueOf => 74,
        BuiltIn::Boolean => 75,
        BuiltIn::BooleanPrototypeToString => 77,
        BuiltIn::BooleanPrototypeValueOf => 78,
        _ => other_function_place(which),
    }
}

// Those of Math and errors, and of `Node`.
#[tactic(auto, unfolding(page_meaning::specs::Places::function_place))]
fn other_function_place(which: BuiltIn) -> u64
    requires { 79 ≤ spec.function_place which }
    ensures { result ≡ spec.function_place which }
{
    match which {
        BuiltIn::MathAbs => 80,
        BuiltIn::MathCeil => 81,
        BuiltIn::MathFloor => 82,
        BuiltIn::MathMax => 83,
        BuiltIn::MathMin => 84,
        BuiltIn::MathPow => 85,
        BuiltIn::MathRound => 86,
        BuiltIn::Error => 87,
        BuiltIn::TypeError => 89,
        BuiltIn::RangeError => 91,
        BuiltIn::ReferenceError => 93,
        BuiltIn::Node => 95,
        _ => host_function_place(which),
    }
}

// Those of nodes and events, and the rest of the global object.
#[tactic(auto, unfolding(page_meaning::specs::Places::function_place))]
fn host_function_place(which: BuiltIn) -> u64
    requires { 96 ≤ spec.function_place which }
    ensures { result ≡ spec.function_place which }
{
    match which {
        BuiltIn::NodePrototypeInsertBefore => 97,
        BuiltIn::NodePrototypeReplaceChild => 98,
        BuiltIn::NodePrototypeRemoveChild => 99,
        BuiltIn::NodePrototypeAppendChild => 100,
        BuiltIn::NodePrototypeHasChildNodes => 101,
        BuiltIn::NodePrototypeGetAttribute => 102,
        BuiltIn::NodePrototypeSetAttribute => 103,
        BuiltIn::NodePrototypeRemoveAttribute => 104,
        BuiltIn::NodePrototypeHasAttribute => 105,
        BuiltIn::NodePrototypeAddEventListener => 106,
        BuiltIn::NodePrototypeRemoveEventListener => 107,
        BuiltIn::NodePrototypeDispatchEvent => 108,
        BuiltIn::NodePrototypeGetElementById => 109,
        BuiltIn::NodePrototypeCreateElement => 110,
        BuiltIn::NodePrototypeCreateTextNode => 111,
        BuiltIn::NodePrototypeCreateComment => 112,
        BuiltIn::NodePrototypeCreateEvent => 113,
        BuiltIn::Event => 114,
        BuiltIn::EventPrototypeInitEvent => 116,
        BuiltIn::EventPrototypeStopPropagation => 117,
        BuiltIn::EventPrototypePreventDefault => 118,
        BuiltIn::IsNaN => 119,
        BuiltIn::IsFinite => 120,
        BuiltIn::ParseInt => 121,
        _ => unreachable!(),
    }
}

/// A built-in function.
pub fn function_at(which: BuiltIn) -> ObjId
    ensures { result ≡ spec.function_at which }
{
    ObjId(function_place(which))
}

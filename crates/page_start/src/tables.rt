//! The functions that the built-in objects of a page hold (ECMA-262 5.1 section 15).

use js_values::BuiltIn;

/// A function that an object holds: its name there, which it is, and its number of formals.
pub(crate) type Method = (&'static [u8], BuiltIn, u8);

/// `Object.prototype` (section 15.2.4)
pub(crate) const OBJECT_PROTOTYPE_FUNCTIONS: [Method; 5] = [
    (b"toString", BuiltIn::ObjectPrototypeToString, 0),
    (b"valueOf", BuiltIn::ObjectPrototypeValueOf, 0),
    (b"hasOwnProperty", BuiltIn::ObjectPrototypeHasOwnProperty, 1),
    (b"isPrototypeOf", BuiltIn::ObjectPrototypeIsPrototypeOf, 1),
    (
        b"propertyIsEnumerable",
        BuiltIn::ObjectPrototypePropertyIsEnumerable,
        1,
    ),
];

/// `Object` (section 15.2.3)
pub(crate) const OBJECT_FUNCTIONS: [Method; 13] = [
    (b"getPrototypeOf", BuiltIn::ObjectGetPrototypeOf, 1),
    (
        b"getOwnPropertyDescriptor",
        BuiltIn::ObjectGetOwnPropertyDescriptor,
        2,
    ),
    (
        b"getOwnPropertyNames",
        BuiltIn::ObjectGetOwnPropertyNames,
        1,
    ),
    (b"create", BuiltIn::ObjectCreate, 2),
    (b"defineProperty", BuiltIn::ObjectDefineProperty, 3),
    (b"defineProperties", BuiltIn::ObjectDefineProperties, 2),
    (b"seal", BuiltIn::ObjectSeal, 1),
    (b"freeze", BuiltIn::ObjectFreeze, 1),
    (b"preventExtensions", BuiltIn::ObjectPreventExtensions, 1),
    (b"isSealed", BuiltIn::ObjectIsSealed, 1),
    (b"isFrozen", BuiltIn::ObjectIsFrozen, 1),
    (b"isExtensible", BuiltIn::ObjectIsExtensible, 1),
    (b"keys", BuiltIn::ObjectKeys, 1),
];

/// `Function.prototype` (section 15.3.4)
pub(crate) const FUNCTION_PROTOTYPE_FUNCTIONS: [Method; 3] = [
    (b"call", BuiltIn::FunctionPrototypeCall, 1),
    (b"apply", BuiltIn::FunctionPrototypeApply, 2),
    (b"bind", BuiltIn::FunctionPrototypeBind, 1),
];

/// `Array.prototype` (section 15.4.4)
pub(crate) const ARRAY_PROTOTYPE_FUNCTIONS: [Method; 18] = [
    (b"toString", BuiltIn::ArrayPrototypeToString, 0),
    (b"concat", BuiltIn::ArrayPrototypeConcat, 1),
    (b"join", BuiltIn::ArrayPrototypeJoin, 1),
    (b"pop", BuiltIn::ArrayPrototypePop, 0),
    (b"push", BuiltIn::ArrayPrototypePush, 1),
    (b"reverse", BuiltIn::ArrayPrototypeReverse, 0),
    (b"shift", BuiltIn::ArrayPrototypeShift, 0),
    (b"slice", BuiltIn::ArrayPrototypeSlice, 2),
    (b"splice", BuiltIn::ArrayPrototypeSplice, 2),
    (b"unshift", BuiltIn::ArrayPrototypeUnshift, 1),
    (b"indexOf", BuiltIn::ArrayPrototypeIndexOf, 1),
    (b"lastIndexOf", BuiltIn::ArrayPrototypeLastIndexOf, 1),
    (b"every", BuiltIn::ArrayPrototypeEvery, 1),
    (b"some", BuiltIn::ArrayPrototypeSome, 1),
    (b"forEach", BuiltIn::ArrayPrototypeForEach, 1),
    (b"map", BuiltIn::ArrayPrototypeMap, 1),
    (b"filter", BuiltIn::ArrayPrototypeFilter, 1),
    (b"reduce", BuiltIn::ArrayPrototypeReduce, 1),
];

/// `Array` (section 15.4.3)
pub(crate) const ARRAY_FUNCTIONS: [Method; 1] = [(b"isArray", BuiltIn::ArrayIsArray, 1)];

/// `String.prototype` (section 15.5.4)
pub(crate) const STRING_PROTOTYPE_FUNCTIONS: [Method; 13] = [
    (b"toString", BuiltIn::StringPrototypeToString, 0),
    (b"valueOf", BuiltIn::StringPrototypeValueOf, 0),
    (b"charAt", BuiltIn::StringPrototypeCharAt, 1),
    (b"charCodeAt", BuiltIn::StringPrototypeCharCodeAt, 1),
    (b"concat", BuiltIn::StringPrototypeConcat, 1),
    (b"indexOf", BuiltIn::StringPrototypeIndexOf, 1),
    (b"lastIndexOf", BuiltIn::StringPrototypeLastIndexOf, 1),
    (b"slice", BuiltIn::StringPrototypeSlice, 2),
    (b"split", BuiltIn::StringPrototypeSplit, 2),
    (b"substring", BuiltIn::StringPrototypeSubstring, 2),
    (b"toLowerCase", BuiltIn::StringPrototypeToLowerCase, 0),
    (b"toUpperCase", BuiltIn::StringPrototypeToUpperCase, 0),
    (b"trim", BuiltIn::StringPrototypeTrim, 0),
];

/// `String` (section 15.5.3)
pub(crate) const STRING_FUNCTIONS: [Method; 1] = [(
    b"fromCharCode",
    BuiltIn::StringFromCharCode,
    1,
)];

/// `Number.prototype` (section 15.7.4)
pub(crate) const NUMBER_PROTOTYPE_FUNCTIONS: [Method; 2] = [
    (b"toString", BuiltIn::NumberPrototypeToString, 1),
    (b"valueOf", BuiltIn::NumberPrototypeValueOf, 0),
];

/// `Boolean.prototype` (section 15.6.4)
pub(crate) const BOOLEAN_PROTOTYPE_FUNCTIONS: [Method; 2] = [
    (b"toString", BuiltIn::BooleanPrototypeToString, 0),
    (b"valueOf", BuiltIn::BooleanPrototypeValueOf, 0),
];

/// `Math` (section 15.8.2)
pub(crate) const MATH_FUNCTIONS: [Method; 7] = [
    (b"abs", BuiltIn::MathAbs, 1),
    (b"ceil", BuiltIn::MathCeil, 1),
    (b"floor", BuiltIn::MathFloor, 1),
    (b"max", BuiltIn::MathMax, 2),
    (b"min", BuiltIn::MathMin, 2),
    (b"pow", BuiltIn::MathPow, 2),
    (b"round", BuiltIn::MathRound, 1),
];

/// `console`
pub(crate) const CONSOLE_FUNCTIONS: [Method; 1] = [(b"log", BuiltIn::ConsoleLog, 0)];

/// The global object (section 15.1.2)
pub(crate) const GLOBAL_FUNCTIONS: [Method; 3] = [
    (b"isNaN", BuiltIn::IsNaN, 1),
    (b"isFinite", BuiltIn::IsFinite, 1),
    (b"parseInt", BuiltIn::ParseInt, 2),
];

/// Timers (HTML, timers)
pub(crate) const TIMER_FUNCTIONS: [Method; 5] = [
    (b"setTimeout", BuiltIn::SetTimeout, 2),
    (b"setInterval", BuiltIn::SetInterval, 2),
    (b"setIntervalFrom", BuiltIn::SetIntervalFrom, 3),
    (b"clearTimeout", BuiltIn::ClearTimeout, 1),
    (b"clearInterval", BuiltIn::ClearInterval, 1),
];

/// `Node.prototype` (DOM Level 2 Core and Events)
pub(crate) const NODE_PROTOTYPE_FUNCTIONS: [Method; 17] = [
    (b"insertBefore", BuiltIn::NodePrototypeInsertBefore, 2),
    (b"replaceChild", BuiltIn::NodePrototypeReplaceChild, 2),
    (b"removeChild", BuiltIn::NodePrototypeRemoveChild, 1),
    (b"appendChild", BuiltIn::NodePrototypeAppendChild, 1),
    (b"hasChildNodes", BuiltIn::NodePrototypeHasChildNodes, 0),
    (b"getAttribute", BuiltIn::NodePrototypeGetAttribute, 1),
    (b"setAttribute", BuiltIn::NodePrototypeSetAttribute, 2),
    (b"removeAttribute", BuiltIn::NodePrototypeRemoveAttribute, 1),
    (b"hasAttribute", BuiltIn::NodePrototypeHasAttribute, 1),
    (
        b"addEventListener",
        BuiltIn::NodePrototypeAddEventListener,
        3,
    ),
    (
        b"removeEventListener",
        BuiltIn::NodePrototypeRemoveEventListener,
        3,
    ),
    (b"dispatchEvent", BuiltIn::NodePrototypeDispatchEvent, 1),
    (b"getElementById", BuiltIn::NodePrototypeGetElementById, 1),
    (b"createElement", BuiltIn::NodePrototypeCreateElement, 1),
    (b"createTextNode", BuiltIn::NodePrototypeCreateTextNode, 1),
    (b"createComment", BuiltIn::NodePrototypeCreateComment, 1),
    (b"createEvent", BuiltIn::NodePrototypeCreateEvent, 1),
];

/// `Event.prototype` (DOM Level 2 Events)
pub(crate) const EVENT_PROTOTYPE_FUNCTIONS: [Method; 3] = [
    (b"initEvent", BuiltIn::EventPrototypeInitEvent, 3),
    (
        b"stopPropagation",
        BuiltIn::EventPrototypeStopPropagation,
        0,
    ),
    (b"preventDefault", BuiltIn::EventPrototypePreventDefault, 0),
];

//! The built-in functions.

/// A built-in function (ECMA-262 5.1 section 15, DOM Level 2, HTML timers). A variant's name is the function's path without
/// its dots, the first letter of each part in upper case.
#[derive(Clone, Copy, PartialEq, Eq)]
pub enum BuiltIn {
    // Section 15.1, and what the host adds to the global object.
    /// `isNaN`
    IsNaN,
    /// `isFinite`
    IsFinite,
    /// `parseInt`
    ParseInt,
    /// `alert`
    Alert,
    /// `setTimeout`
    SetTimeout,
    /// `setInterval`
    SetInterval,
    /// `setIntervalFrom`
    SetIntervalFrom,
    /// `clearTimeout`
    ClearTimeout,
    /// `clearInterval`
    ClearInterval,
    /// `console.log`
    ConsoleLog,
    // Section 15.2.
    /// `Object`
    Object,
    /// `Object.getPrototypeOf`
    ObjectGetPrototypeOf,
    /// `Object.getOwnPropertyDescriptor`
    ObjectGetOwnPropertyDescriptor,
    /// `Object.getOwnPropertyNames`
    ObjectGetOwnPropertyNames,
    /// `Object.create`
    ObjectCreate,
    /// `Object.defineProperty`
    ObjectDefineProperty,
    /// `Object.defineProperties`
    ObjectDefineProperties,
    /// `Object.seal`
    ObjectSeal,
    /// `Object.freeze`
    ObjectFreeze,
    /// `Object.preventExtensions`
    ObjectPreventExtensions,
    /// `Object.isSealed`
    ObjectIsSealed,
    /// `Object.isFrozen`
    ObjectIsFrozen,
    /// `Object.isExtensible`
    ObjectIsExtensible,
    /// `Object.keys`
    ObjectKeys,
    /// `Object.prototype.toString`
    ObjectPrototypeToString,
    /// `Object.prototype.valueOf`
    ObjectPrototypeValueOf,
    /// `Object.prototype.hasOwnProperty`
    ObjectPrototypeHasOwnProperty,
    /// `Object.prototype.isPrototypeOf`
    ObjectPrototypeIsPrototypeOf,
    /// `Object.prototype.propertyIsEnumerable`
    ObjectPrototypePropertyIsEnumerable,
    // Section 15.3; `Function.prototype` is itself a function.
    /// `Function`
    Function,
    /// `Function.prototype`
    FunctionPrototype,
    /// `Function.prototype.call`
    FunctionPrototypeCall,
    /// `Function.prototype.apply`
    FunctionPrototypeApply,
    /// `Function.prototype.bind`
    FunctionPrototypeBind,
    // Section 15.4.
    /// `Array`
    Array,
    /// `Array.isArray`
    ArrayIsArray,
    /// `Array.prototype.toString`
    ArrayPrototypeToString,
    /// `Array.prototype.concat`
    ArrayPrototypeConcat,
    /// `Array.prototype.join`
    ArrayPrototypeJoin,
    /// `Array.prototype.pop`
    ArrayPrototypePop,
    /// `Array.prototype.push`
    ArrayPrototypePush,
    /// `Array.prototype.reverse`
    ArrayPrototypeReverse,
    /// `Array.prototype.shift`
    ArrayPrototypeShift,
    /// `Array.prototype.slice`
    ArrayPrototypeSlice,
    /// `Array.prototype.splice`
    ArrayPrototypeSplice,
    /// `Array.prototype.unshift`
    ArrayPrototypeUnshift,
    /// `Array.prototype.indexOf`
    ArrayPrototypeIndexOf,
    /// `Array.prototype.lastIndexOf`
    ArrayPrototypeLastIndexOf,
    /// `Array.prototype.every`
    ArrayPrototypeEvery,
    /// `Array.prototype.some`
    ArrayPrototypeSome,
    /// `Array.prototype.forEach`
    ArrayPrototypeForEach,
    /// `Array.prototype.map`
    ArrayPrototypeMap,
    /// `Array.prototype.filter`
    ArrayPrototypeFilter,
    /// `Array.prototype.reduce`
    ArrayPrototypeReduce,
    // Section 15.5.
    /// `String`
    String,
    /// `String.fromCharCode`
    StringFromCharCode,
    /// `String.prototype.toString`
    StringPrototypeToString,
    /// `String.prototype.valueOf`
    StringPrototypeValueOf,
    /// `String.prototype.charAt`
    StringPrototypeCharAt,
    /// `String.prototype.charCodeAt`
    StringPrototypeCharCodeAt,
    /// `String.prototype.concat`
    StringPrototypeConcat,
    /// `String.prototype.indexOf`
    StringPrototypeIndexOf,
    /// `String.prototype.lastIndexOf`
    StringPrototypeLastIndexOf,
    /// `String.prototype.slice`
    StringPrototypeSlice,
    /// `String.prototype.split`
    StringPrototypeSplit,
    /// `String.prototype.substring`
    StringPrototypeSubstring,
    /// `String.prototype.toLowerCase`
    StringPrototypeToLowerCase,
    /// `String.prototype.toUpperCase`
    StringPrototypeToUpperCase,
    /// `String.prototype.trim`
    StringPrototypeTrim,
    // Sections 15.6 and 15.7.
    /// `Boolean`
    Boolean,
    /// `Boolean.prototype.toString`
    BooleanPrototypeToString,
    /// `Boolean.prototype.valueOf`
    BooleanPrototypeValueOf,
    /// `Number`
    Number,
    /// `Number.prototype.toString`
    NumberPrototypeToString,
    /// `Number.prototype.valueOf`
    NumberPrototypeValueOf,
    // Section 15.8.
    /// `Math.abs`
    MathAbs,
    /// `Math.ceil`
    MathCeil,
    /// `Math.floor`
    MathFloor,
    /// `Math.max`
    MathMax,
    /// `Math.min`
    MathMin,
    /// `Math.pow`
    MathPow,
    /// `Math.round`
    MathRound,
    // Section 15.11.
    /// `Error`
    Error,
    /// `TypeError`
    TypeError,
    /// `RangeError`
    RangeError,
    /// `ReferenceError`
    ReferenceError,
    // DOM Level 2 Core and Events: what nodes have, the document's calls among them.
    /// `Node`
    Node,
    /// `Node.prototype.insertBefore`
    NodePrototypeInsertBefore,
    /// `Node.prototype.replaceChild`
    NodePrototypeReplaceChild,
    /// `Node.prototype.removeChild`
    NodePrototypeRemoveChild,
    /// `Node.prototype.appendChild`
    NodePrototypeAppendChild,
    /// `Node.prototype.hasChildNodes`
    NodePrototypeHasChildNodes,
    /// `Node.prototype.getAttribute`
    NodePrototypeGetAttribute,
    /// `Node.prototype.setAttribute`
    NodePrototypeSetAttribute,
    /// `Node.prototype.removeAttribute`
    NodePrototypeRemoveAttribute,
    /// `Node.prototype.hasAttribute`
    NodePrototypeHasAttribute,
    /// `Node.prototype.addEventListener`
    NodePrototypeAddEventListener,
    /// `Node.prototype.removeEventListener`
    NodePrototypeRemoveEventListener,
    /// `Node.prototype.dispatchEvent`
    NodePrototypeDispatchEvent,
    /// `Node.prototype.getElementById`
    NodePrototypeGetElementById,
    /// `Node.prototype.createElement`
    NodePrototypeCreateElement,
    /// `Node.prototype.createTextNode`
    NodePrototypeCreateTextNode,
    /// `Node.prototype.createComment`
    NodePrototypeCreateComment,
    /// `Node.prototype.createEvent`
    NodePrototypeCreateEvent,
    // DOM Level 2 Events: what events have.
    /// `Event`
    Event,
    /// `Event.prototype.initEvent`
    EventPrototypeInitEvent,
    /// `Event.prototype.stopPropagation`
    EventPrototypeStopPropagation,
    /// `Event.prototype.preventDefault`
    EventPrototypePreventDefault,
}

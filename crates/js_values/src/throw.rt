//! The errors that the language and its host throw.

ghost use Rattle.std.specs.Prelude.{◌≡◌, ◌++◌, IfOk, OnOk};
ghost use Rattle.js_values.specs.Throw.{code_of, kind_of, kind_name, message_of, thrown_text};

use js_core::{OutOfMemory, Units, push_ascii};
use std::alloc::Global;

/// What is wrong where an error is thrown. It fixes the error's `name` and `message`.
#[derive(PartialEq, Eq, Drop)]
pub enum Throw {
    /// ReferenceError, NAME `is not defined`: the name is not resolved.
    NotDefined(Units),
    /// TypeError, `not a function`: what is called, constructed or on the right side of instanceof is none, or it is a
    /// built-in that may not be constructed.
    NotFunction,
    /// TypeError, `no properties`: a property of undefined or null.
    NoProperties,
    /// TypeError, `cannot set`: the property may not be put.
    CannotSet,
    /// TypeError, `cannot define`: the property may not be defined, or the extension not prevented.
    CannotDefine,
    /// TypeError, `cannot delete`: the property may not be deleted.
    CannotDelete,
    /// TypeError, `no primitive value`: an object where a primitive value is needed.
    NoPrimitive,
    /// TypeError, `not an object`: the right side of `in`, or the prototype that instanceof reads.
    NotObject,
    /// TypeError, `wrong argument`: any other TypeError of a built-in.
    WrongArgument,
    /// RangeError, `number out of range`: a number, a radix or the count of live timers.
    OutOfRange,
    /// RangeError, `text too long`: a string of more than 1,048,576 units.
    TextTooLong,
    /// RangeError, `invalid length`: the length of an array.
    InvalidLength,
    /// RangeError, `too deep`: more than 1,000 active functions.
    TooDeep,
    /// Error, `HIERARCHY_REQUEST_ERR` (DOM Level 2 Core, code 3).
    Hierarchy,
    /// Error, `INVALID_CHARACTER_ERR` (DOM Level 2 Core, code 5).
    InvalidCharacter,
    /// Error, `NOT_FOUND_ERR` (DOM Level 2 Core, code 8).
    NotFound,
    /// Error, `NOT_SUPPORTED_ERR` (DOM Level 2 Core, code 9).
    NotSupported,
    /// Error, `UNSPECIFIED_EVENT_TYPE_ERR` (DOM Level 2 Events, code 0).
    UnspecifiedEventType,
}

/// The kind of an error, whose constructor and prototype it has (ECMA-262 5.1 section 15.11).
#[derive(Clone, Copy, PartialEq, Eq)]
pub enum ErrorKind {
    /// Error
    Plain,
    /// TypeError
    Type,
    /// RangeError
    Range,
    /// ReferenceError
    Reference,
}

impl ErrorKind {
    /// The name of the kind's constructor, which is the `name` of its errors.
    pub fn name(self) -> &'static [u8]
        ensures { result.now ≡ kind_name self }
    {
        match self {
            ErrorKind::Plain => b"Error",
            ErrorKind::Type => b"TypeError",
            ErrorKind::Range => b"RangeError",
            ErrorKind::Reference => b"ReferenceError",
        }
    }
}

impl Throw {
    /// The error's `message`.
    pub fn message(&self, alloc: Global) -> Result<Units, OutOfMemory>
        ensures { IfOk result (λ text. text ≡ message_of self.now) }
    {
        let mut units = Vec::new(alloc);
        self.push_message(&mut units)?;
        Units::of(alloc, units.as_slice())
    }

    /// The text of the line for this error where nothing catches it: its `name`, a colon, a space and its `message`.
    pub fn line_text(&self, alloc: Global) -> Result<Units, OutOfMemory>
        ensures { IfOk result (λ text. text ≡ thrown_text self.now) }
    {
        let mut units = Vec::new(alloc);
        push_ascii(self.kind().name(), &mut units)?;
        push_ascii(b": ", &mut units)?;
        self.push_message(&mut units)?;
        Units::of(alloc, units.as_slice())
    }

    fn push_message(&self, out: &mut Vec<u16>) -> Result<(), OutOfMemory>
        ensures { OnOk result (out.new.items ≡ out.old.items ++ message_of self.now) }
    {
        let (name, words) = self.message_parts();
        out.extend_from_slice(name)?;
        push_ascii(words, out)
    }

    /// The kind of the error.
    pub fn kind(&self) -> ErrorKind
        ensures { result ≡ kind_of self.now }
    {
        match self {
            Throw::NotDefined(_) => ErrorKind::Reference,
            Throw::NotFunction
            | Throw::NoProperties
            | Throw::CannotSet
            | Throw::CannotDefine
            | Throw::CannotDelete
            | Throw::NoPrimitive
            | Throw::NotObject
            | Throw::WrongArgument => ErrorKind::Type,
            Throw::OutOfRange | Throw::TextTooLong | Throw::InvalidLength | Throw::TooDeep => {
                ErrorKind::Range
            }
            Throw::Hierarchy
            | Throw::InvalidCharacter
            | Throw::NotFound
            | Throw::NotSupported
            | Throw::UnspecifiedEventType => ErrorKind::Plain,
        }
    }

    /// The error's own `code`, which the errors of the host alone have (DOM Level 2 Core and Events).
    pub fn code(&self) -> Option<u8>
        ensures { result ≡ code_of self.now }
    {
        match self {
            Throw::Hierarchy => Some(3),
            Throw::InvalidCharacter => Some(5),
            Throw::NotFound => Some(8),
            Throw::NotSupported => Some(9),
            Throw::UnspecifiedEventType => Some(0),
            _ => None,
        }
    }

    // The name that the message begins with, which is empty where it has none, and the words that follow it.
    fn message_parts(&self) -> (&[u16], &'static [u8])
        ensures { result.0.now ++ result.1.now ≡ message_of self.now }
    {
        match self {
            Throw::NotDefined(name) => (name.as_slice(), b" is not defined"),
            Throw::NotFunction => (&[], b"not a function"),
            Throw::NoProperties => (&[], b"no properties"),
            Throw::CannotSet => (&[], b"cannot set"),
            Throw::CannotDefine => (&[], b"cannot define"),
            Throw::CannotDelete => (&[], b"cannot delete"),
            Throw::NoPrimitive => (&[], b"no primitive value"),
            Throw::NotObject => (&[], b"not an object"),
            Throw::WrongArgument => (&[], b"wrong argument"),
            Throw::OutOfRange => (&[], b"number out of range"),
            Throw::TextTooLong => (&[], b"text too long"),
            Throw::InvalidLength => (&[], b"invalid length"),
            Throw::TooDeep => (&[], b"too deep"),
            Throw::Hierarchy => (&[], b"HIERARCHY_REQUEST_ERR"),
            Throw::InvalidCharacter => (&[], b"INVALID_CHARACTER_ERR"),
            Throw::NotFound => (&[], b"NOT_FOUND_ERR"),
            Throw::NotSupported => (&[], b"NOT_SUPPORTED_ERR"),
            Throw::UnspecifiedEventType => (&[], b"UNSPECIFIED_EVENT_TYPE_ERR"),
        }
    }
}

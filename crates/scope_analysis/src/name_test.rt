//! The names that are special.

ghost use Rattle.std.specs.Prelude.{◌≡◌};
ghost use Rattle.scope_analysis.specs.Identifiers as spec;

use js_core::Units;

/// What is asked of a name.
#[derive(Clone, Copy, PartialEq, Eq)]
pub enum NameTest {
    /// It is `eval` or `arguments`.
    IsRestricted,
    /// It begins with `$$`.
    IsReserved,
}

/// Whether the name is `eval` or `arguments`.
pub fn is_restricted(name: &Units) -> bool
    ensures { result ≡ spec.is_restricted name.now }
{
    name.spells(b"eval") || name.spells(b"arguments")
}

/// Whether the name begins with `$$`.
pub fn is_reserved(name: &Units) -> bool
    ensures { result ≡ spec.is_reserved name.now }
{
    match name.as_slice() {
        [first, second, ..] => *first == 36 && *second == 36,
        _ => false,
    }
}

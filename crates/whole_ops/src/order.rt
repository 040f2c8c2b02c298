//! The order of numbers and of texts.

ghost use Rattle.std.specs.Prelude.{◌≡◌, ◌≢◌, ℤ, Option, true, false};
ghost use Rattle.whole_ops.specs.Order as spec;

use js_core::{Units, Whole};

/// Whether the first is less (ECMA-262 5.1 section 11.8.5), or `None` exactly where one of the two is NaN. It is a
/// strict order on numbers, in which of two different ones one is less.
pub fn less(a: Whole, b: Whole) -> Option<bool>
    ensures value { result ≡ spec.whole_less a b }
    ensures irreflexive { a ≡ b → result ≢ Some true }
    ensures transitive { (c : Option ℤ) → result ≡ Some true → spec.whole_less b c ≡ Some true
        → spec.whole_less a c ≡ Some true }
    ensures connected { result ≡ Some false → spec.whole_less b a ≡ Some false → a ≡ b }
{
    match (a.get(), b.get()) {
        (Some(x), Some(y)) => Some(x < y),
        _ => None,
    }
}

/// Whether the first text comes before the second, by their units (section 11.8.5 step 4): a text comes before what goes
/// on after it.
pub fn text_less(a: &Units, b: &Units) -> bool
    ensures { result ≡ spec.text_less a.now b.now }
{
    units_less(a.as_slice(), b.as_slice())
}

fn units_less(a: &[u16], b: &[u16]) -> bool
    ensures { result ≡ spec.text_less a.now b.now }
{
    let mut left = a;
    let mut right = b;
    while let [second, behind @ ..] = right {
        let [first, rest @ ..] = left else {
            return true;
        };
        if first != second {
            return first < second;
        }
        left = rest;
        right = behind;
    }
    false
}

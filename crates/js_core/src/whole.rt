//! The numbers of the language.

ghost use Rattle.std.specs.Prelude.{◌≡◌, ◌↔◌, IsSome, IfSome};
ghost use Rattle.js_core.specs.Whole.{InRange, nan, whole_of};

use std::marker::Model;

/// A number: a whole number from -9,007,199,254,740,991 to 9,007,199,254,740,991, or NaN. These are the values of
/// ECMA-262 5.1 section 8.5 without fractions, infinities and -0. Contracts see `Some` of the number, and `None` for
/// NaN. `==` tells whether two are the same value, so NaN equals NaN.
#[derive(Clone, Copy, PartialEq, Eq, Hash)]
pub struct Whole {
    number: Option<i64>,
}

impl Model for Whole {
    ghost use Rattle.std.specs.Prelude.{Option, ℤ};
    ghost use Rattle.std.specs.Option.{ForSome};
    ghost use Rattle.js_core.specs.Whole.{InRange};

    ghost Value = { Option ℤ };

    ghost view = { λ w. w.number };

    ghost inverse = { λ n. record { number = n } };

    ghost invariant = { λ w. ForSome w.number InRange };
}

impl Whole {
    /// The largest number. The smallest is this one, negated.
    pub const LARGEST: i64 = 9_007_199_254_740_991;

    /// The number `n`, or `None` exactly where it is out of range.
    pub const fn new(n: i64) -> Option<Whole>
        ensures value { result ≡ whole_of n }
        ensures in_range { IsSome result ↔ InRange n }
    {
        if n < -Whole::LARGEST || n > Whole::LARGEST {
            return None;
        }
        Some(Whole { number: Some(n) })
    }

    /// NaN.
    pub const fn nan() -> Whole
        ensures { result ≡ nan }
    {
        Whole { number: None }
    }

    /// The number, or `None` exactly for NaN.
    pub const fn get(&self) -> Option<i64>
        ensures value { result ≡ self.now }
        ensures in_range { IfSome result InRange }
    {
        self.number
    }
}

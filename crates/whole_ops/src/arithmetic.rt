//! Sums, products, quotients and remainders.

ghost use Rattle.std.specs.Prelude.{◌≡◌, IsOk};
ghost use Rattle.js_core.specs.Whole.{InRange};
ghost use Rattle.whole_ops.specs.Arithmetic as spec;

use crate::fault::OpFault;
use js_core::Whole;

/// The size of the largest number.
pub(crate) const LARGEST: u64 = Whole::LARGEST as u64;

/// The sum (ECMA-262 5.1 section 11.6.3): NaN where one of the two is NaN, and `Outside` exactly where the sum is out
/// of range.
pub fn add(a: Whole, b: Whole) -> Result<Whole, OpFault>
    ensures { result ≡ spec.whole_add a b }
{
    match (a.get(), b.get()) {
        (Some(x), Some(y)) => whole_or_outside(x + y),
        _ => Ok(Whole::nan()),
    }
}

/// The first less the second (section 11.6.3), in the same way.
pub fn sub(a: Whole, b: Whole) -> Result<Whole, OpFault>
    ensures { result ≡ spec.whole_sub a b }
{
    match (a.get(), b.get()) {
        (Some(x), Some(y)) => whole_or_outside(x - y),
        _ => Ok(Whole::nan()),
    }
}

/// The product (section 11.5.1), in the same way. Where the standard has -0 it is 0.
pub fn mul(a: Whole, b: Whole) -> Result<Whole, OpFault>
    ensures { result ≡ spec.whole_mul a b }
{
    match (a.get(), b.get()) {
        (Some(x), Some(y)) => product(x, y),
        _ => Ok(Whole::nan()),
    }
}

/// The quotient (section 11.5.2): NaN where one of the two is NaN or both are 0, and else `Outside` exactly where the
/// divisor is 0 or does not divide the dividend. Where the standard has -0 it is 0.
pub fn div(a: Whole, b: Whole) -> Result<Whole, OpFault>
    ensures { result ≡ spec.whole_div a b }
{
    match (a.get(), b.get()) {
        (Some(x), Some(y)) => quotient(x, y),
        _ => Ok(Whole::nan()),
    }
}

/// The remainder (section 11.5.3), which has the sign of the dividend: NaN where one of the two is NaN or the divisor
/// is 0. It never answers `Outside`. Where the standard has -0 it is 0.
pub fn rem(a: Whole, b: Whole) -> Result<Whole, OpFault>
    ensures value { result ≡ spec.whole_rem a b }
    ensures answers { IsOk result }
{
    match (a.get(), b.get()) {
        (Some(x), Some(y)) => remainder(x, y),
        _ => Ok(Whole::nan()),
    }
}

// The number, where it is in range.
pub(crate) fn whole_or_outside(number: i64) -> Result<Whole, OpFault>
    ensures { result ≡ spec.whole_or_outside number }
{
    Whole::new(number).ok_or(OpFault::Outside)
}

fn product(x: i64, y: i64) -> Result<Whole, OpFault>
    ensures { result ≡ spec.product_of x y }
{
    match x.checked_mul(y) {
        Some(product) => whole_or_outside(product),
        None => Err(OpFault::Outside),
    }
}

pub(crate) fn quotient(x: i64, y: i64) -> Result<Whole, OpFault>
    requires { InRange x }
    ensures { result ≡ spec.quotient_of x y }
{
    if y == 0 {
        return if x == 0 {
            Ok(Whole::nan())
        } else {
            Err(OpFault::Outside)
        };
    }
    if x % y != 0 {
        return Err(OpFault::Outside);
    }
    whole_or_outside(x / y)
}

fn remainder(x: i64, y: i64) -> Result<Whole, OpFault>
    requires { InRange x }
    ensures value { result ≡ spec.remainder_of x y }
    ensures answers { IsOk result }
{
    if y == 0 {
        return Ok(Whole::nan());
    }
    whole_or_outside(x % y)
}

//! Powers.

ghost use Rattle.std.specs.Prelude.{◌≡◌, ◌*◌, ◌^◌, ◌≤◌, unsigned_abs, SomeIff};
ghost use Rattle.std.specs.Int.{int_pow};
ghost use Rattle.js_core.specs.Whole.{largest};
ghost use Rattle.whole_ops.specs.Power as spec;

use crate::arithmetic::{LARGEST, quotient, whole_or_outside};
use crate::fault::OpFault;
use js_core::Whole;

/// The first to the power of the second (ECMA-262 5.1 section 15.8.2.13): NaN where the second is NaN, or the first is
/// NaN and the second is not 0; and `Outside` exactly where the power is out of range, infinite or a fraction. Where the
/// standard has -0 it is 0. It takes at most 53 products.
pub fn pow(a: Whole, b: Whole) -> Result<Whole, OpFault>
    ensures { result ≡ spec.whole_pow a b }
{
    match (a.get(), b.get()) {
        (Some(x), Some(n)) => power(x, n),
        (None, Some(0)) => whole_or_outside(1),
        _ => Ok(Whole::nan()),
    }
}

fn power(x: i64, n: i64) -> Result<Whole, OpFault>
    ensures { result ≡ spec.power_of x n }
{
    let Some(power) = natural_power(x, n.unsigned_abs()) else {
        return Err(OpFault::Outside);
    };
    if n < 0 {
        quotient(1, power)
    } else {
        whole_or_outside(power)
    }
}

/// The power, or `None` exactly where it is out of range.
fn natural_power(x: i64, n: u64) -> Option<i64>
    ensures { SomeIff result (unsigned_abs (int_pow x n) ≤ largest) (int_pow x n) }
{
    let size = size_in_range(x.unsigned_abs(), n)? as i64;
    if x < 0 && n % 2 == 1 {
        return Some(-size);
    }
    Some(size)
}

/// The power, or `None` exactly where it is past the largest number.
fn size_in_range(base: u64, n: u64) -> Option<u64>
    ensures { SomeIff result (base ^ n ≤ largest) (base ^ n) }
{
    if base < 2 {
        return Some(if n == 0 { 1 } else { base });
    }
    let mut size: u64 = 1;
    for _turn in 0..n {
        let Some(product) = product_in_range(size, base) else {
            return None;
        };
        size = product;
    }
    Some(size)
}

/// The product, or `None` exactly where it is past the largest number.
fn product_in_range(a: u64, b: u64) -> Option<u64>
    ensures { SomeIff result (a * b ≤ largest) (a * b) }
{
    let product = a.checked_mul(b)?;
    (product <= LARGEST).then_some(product)
}

//! The operators on bits.

ghost use Rattle.std.specs.Prelude.{◌≡◌, Some};
ghost use Rattle.js_core.specs.Whole.{InRange};
ghost use Rattle.whole_ops.specs.Bits as spec;

use js_core::Whole;

/// The binary operators on 32 bits (ECMA-262 5.1 sections 11.7 and 11.10).
#[derive(Clone, Copy, PartialEq, Eq)]
pub enum BitOp {
    /// `&`
    And,
    /// `|`
    Or,
    /// `^`
    Xor,
    /// `<<`
    Shl,
    /// `>>`
    Shr,
    /// `>>>`
    Ushr,
}

/// The operator at two numbers. NaN counts as 0, and of the right side of a shift only the last five bits count. The
/// result of `>>>` is from 0 to 4,294,967,295, and that of the others from -2,147,483,648 to 2,147,483,647.
pub fn bits(op: BitOp, a: Whole, b: Whole) -> Whole
    ensures { result ≡ spec.whole_bits op a b }
{
    let left = to_uint32(a);
    let right = to_uint32(b);
    match op {
        BitOp::And => of_bits(left & right),
        BitOp::Or => of_bits(left | right),
        BitOp::Xor => of_bits(left ^ right),
        BitOp::Shl => of_bits(left.wrapping_shl(right)),
        BitOp::Shr => whole(i64::from(left.cast_signed().wrapping_shr(right))),
        BitOp::Ushr => whole(i64::from(left.wrapping_shr(right))),
    }
}

/// The complement of the 32 bits (section 11.4.8).
pub fn not(a: Whole) -> Whole
    ensures { result ≡ spec.whole_not a }
{
    of_bits(!to_uint32(a))
}

/// The number modulo 2^32 (section 9.6), 0 for NaN.
pub fn to_uint32(number: Whole) -> u32
    ensures { result ≡ spec.to_uint32 number }
{
    match number.get() {
        Some(n) => n.rem_euclid(1 << 32) as u32,
        None => 0,
    }
}

/// The number from -2^31 to 2^31 - 1 that these bits are (section 9.5).
fn of_bits(bits: u32) -> Whole
    ensures { result ≡ Some (spec.signed_of bits) }
{
    whole(i64::from(bits.cast_signed()))
}

/// The number, which is in range.
fn whole(number: i64) -> Whole
    requires { InRange number }
    ensures { result ≡ Some number }
{
    Whole::new(number).unwrap()
}

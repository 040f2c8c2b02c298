//! The text of a number.

ghost use Rattle.std.specs.Prelude.{◌≡◌, IfOk};
ghost use Rattle.whole_ops.specs.Numeral as spec;

use itoa::Buffer;
use js_core::{OutOfMemory, Units, Whole, ascii_text};
use std::alloc::Global;

/// The text of the number (section 9.8.1): its decimal digits, with `-` before them where it is below 0, or `NaN`. It is
/// read back as the same number.
pub fn to_text(alloc: Global, number: Whole) -> Result<Units, OutOfMemory>
    ensures text { IfOk result (λ text. text ≡ spec.text_of_whole number) }
    ensures read_back { IfOk result (λ text. spec.to_whole text ≡ Ok number) }
{
    match number.get() {
        None => ascii_text(alloc, b"NaN"),
        Some(n) => ascii_text(alloc, Buffer::new().format(n).as_bytes()),
    }
}

//! Array indices (ECMA-262 5.1 section 15.4).

ghost use Rattle.std.specs.Prelude.{◌≡◌, ◌<◌, Some, IfOk, IfSome, None, min, if◌then◌else◌};
ghost use Rattle.std.specs.Fmt.{decimal};
ghost use Rattle.std.specs.List.{list_all};
ghost use Rattle.object_heap.specs.Index.{index_of, index_end, begins_well, is_digit, number_of};

use itoa::Buffer;
use js_core::{OutOfMemory, Units, ascii_text};
use std::alloc::Global;

/// 2^32 - 1, which is no array index.
const INDEX_END: u64 = 4_294_967_295;

const ZERO: u16 = 48;

const NINE: u16 = 57;

/// The array index that the name is, from 0 to 4,294,967,294, or `None` exactly where it is none: where it is not what a
/// number of that range is written as in decimal.
pub fn array_index(name: &Units) -> Option<u64>
    ensures index { result ≡ index_of name.now }
    ensures small { IfSome result (λ i. i < index_end) }
{
    let units = name.as_slice();
    if !begins_well(units) {
        return None;
    }
    match number(units) {
        Some(n) if n < INDEX_END => Some(n),
        _ => None,
    }
}

/// The name of an element: its index in decimal digits.
pub fn index_name(alloc: Global, index: u64) -> Result<Units, OutOfMemory>
    ensures { IfOk result (λ name. name ≡ decimal index) }
{
    ascii_text(alloc, Buffer::new().format(index).as_bytes())
}

fn begins_well(units: &[u16]) -> bool
    ensures { result ≡ begins_well units.now }
{
    match units {
        [] => false,
        [_] => true,
        [first, _, ..] => *first != ZERO,
    }
}

// The number that the digits write, or `INDEX_END` where it is larger; `None` where one is no digit.
fn number(units: &[u16]) -> Option<u64>
    ensures { result ≡ (if list_all is_digit units.now then Some
        (min (number_of units.now) index_end) else None) }
{
    let mut number = 0u64;
    for unit in units {
        if *unit < ZERO || *unit > NINE {
            return None;
        }
        number = (number * 10 + u64::from(*unit - ZERO)).min(INDEX_END);
    }
    Some(number)
}

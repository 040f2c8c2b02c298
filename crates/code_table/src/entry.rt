//! Rows of a table.

ghost use Rattle.std.specs.Prelude.{◌≡◌, option_copied, slice_get};
ghost use Rattle.code_table.specs.Table.{number_in};

use crate::kind::Kind;

/// A node: its kind, and the numbers of its parts.
#[cycle(code)]
#[derive(Drop)]
pub struct Entry {
    pub kind: Kind,
    pub parts: Vec<u32>,
}

/// The row of a number.
pub fn entry_at(entries: &[Entry], node: u32) -> Option<&Entry>
    ensures { option_copied result ≡ slice_get entries.now node }
{
    match entries.get(node as usize) {
        Some(entry) => Some(entry),
        None => None,
    }
}

/// The kth number, or that of no node.
pub fn number_at(parts: &[u32], k: u64) -> u32
    ensures { result ≡ number_in (slice_get parts.now k) }
{
    match parts.get(k as usize) {
        Some(number) => *number,
        None => u32::MAX,
    }
}

//! Operators and their operands, as a table has them.

use crate::operand::operand;
use crate::operator::Operator;
use crate::outcome::Outcome;
use js_core::OutOfMemory;
use std::alloc::Global;

/// What the operator gives at its operands; the three have tabs between them.
pub fn outcome(alloc: Global, row: &str) -> Result<Outcome, OutOfMemory> {
    let (name, operands) = cut_at_tab(row);
    let (left, right) = cut_at_tab(operands);
    let left = operand(alloc, left)?;
    let right = operand(alloc, right)?;
    match Operator::named(name) {
        Some(operator) => Ok(operator.answer(&left, &right)),
        None => Ok(Outcome::Unknown),
    }
}

// What stands before the first tab, and what stands after it.
fn cut_at_tab(text: &str) -> (&str, &str) {
    match text.split_once('\t') {
        Some(parts) => parts,
        None => (text, ""),
    }
}

//! The operands of rows.

use js_core::{OutOfMemory, Units, Whole};
use js_values::Value;
use std::alloc::Global;
use whole_ops::to_number;

/// The value that a word means: a string is written after an apostrophe, a number as `to_number` reads it, and any other
/// value by its name. What is no number of the language is NaN.
pub fn operand(alloc: Global, word: &str) -> Result<Value, OutOfMemory> {
    match word.strip_prefix('\'') {
        Some(text) => Ok(Value::Text(Units::from_utf8(alloc, text)?)),
        None => named_operand(alloc, word),
    }
}

fn named_operand(alloc: Global, word: &str) -> Result<Value, OutOfMemory> {
    match word {
        "undefined" => Ok(Value::Undefined),
        "null" => Ok(Value::Null),
        "true" => Ok(Value::Bool(true)),
        "false" => Ok(Value::Bool(false)),
        _ => Ok(Value::Num(number(alloc, word)?)),
    }
}

fn number(alloc: Global, word: &str) -> Result<Whole, OutOfMemory> {
    match to_number(&Units::from_utf8(alloc, word)?) {
        Ok(number) => Ok(number),
        Err(_) => Ok(Whole::nan()),
    }
}

//! Texts of rows.

use serde_json::Value;
use std::alloc::Global;
use std::io;
use std::io::{Error, ErrorKind};

/// A row that says what no row does.
pub fn malformed() -> Error {
    Error::from(ErrorKind::InvalidData)
}

// Appends what a piece stands for: a string its text, a number the byte, and a list `[N, "text"]` the text N times.
fn push_piece(alloc: Global, piece: &Value, bytes: &mut Vec<u8>) -> io::Result<()> {
    if let Some(text) = piece.as_str() {
        bytes.extend_from_slice(text.as_bytes())?;
        return Ok(());
    }
    if let Some(byte) = piece.as_u64() {
        bytes.push(u8::try_from(byte).map_err(|_| malformed())?)?;
        return Ok(());
    }
    match piece.as_array().map(|pieces| pieces.as_slice()) {
        Some([times, repeated]) => push_repeated(alloc, times, repeated, bytes),
        _ => Err(malformed()),
    }
}

// Appends a text so many times.
fn push_repeated(
    alloc: Global,
    times: &Value,
    repeated: &Value,
    bytes: &mut Vec<u8>,
) -> io::Result<()> {
    let (Some(times), Some(text)) = (times.as_u64(), repeated.as_str()) else {
        return Err(malformed());
    };
    let text = String::from_str(alloc, text)?;
    for _ in 0..times {
        bytes.extend_from_slice(text.as_bytes())?;
    }
    Ok(())
}

/// The bytes of a text: a string, or a list of pieces, each a string, a byte or a list `[N, "text"]` of a text N times.
pub fn text_of(alloc: Global, value: &Value) -> io::Result<Vec<u8>> {
    let mut bytes = Vec::new(alloc);
    if let Some(text) = value.as_str() {
        bytes.extend_from_slice(text.as_bytes())?;
        return Ok(bytes);
    }
    let Some(pieces) = value.as_array() else {
        return Err(malformed());
    };
    for piece in pieces {
        push_piece(alloc, piece, &mut bytes)?;
    }
    Ok(bytes)
}

/// The text at a key, empty where there is none.
pub fn text_at(alloc: Global, row: &Value, key: &str) -> io::Result<Vec<u8>> {
    match row.get(key) {
        Some(value) => text_of(alloc, value),
        None => Ok(Vec::new(alloc)),
    }
}

/// The number at a key, or this one where there is none.
pub fn number_at(row: &Value, key: &str, without: u64) -> io::Result<u64> {
    match row.get(key) {
        Some(value) => value.as_u64().ok_or(malformed()),
        None => Ok(without),
    }
}

/// The items at a key, none where it is absent.
pub fn items_at<'a>(row: &'a Value, key: &str) -> &'a [Value] {
    match row.get(key).and_then(Value::as_array) {
        Some(items) => items.as_slice(),
        None => &[],
    }
}

/// The numbers at a key.
pub fn numbers_at(alloc: Global, row: &Value, key: &str) -> io::Result<Vec<u64>> {
    let mut numbers = Vec::new(alloc);
    for item in items_at(row, key) {
        numbers.push(item.as_u64().ok_or(malformed())?)?;
    }
    Ok(numbers)
}

/// The pairs of numbers at a key.
pub fn pairs_at(alloc: Global, row: &Value, key: &str) -> io::Result<Vec<(u64, u64)>> {
    let mut pairs = Vec::new(alloc);
    for item in items_at(row, key) {
        match item.as_array().map(|pair| pair.as_slice()) {
            Some([left, right]) => {
                let left = left.as_u64().ok_or(malformed())?;
                let right = right.as_u64().ok_or(malformed())?;
                pairs.push((left, right))?;
            }
            _ => return Err(malformed()),
        }
    }
    Ok(pairs)
}

/// The words at a key.
pub fn words_at(alloc: Global, row: &Value, key: &str) -> io::Result<Vec<String>> {
    let mut words = Vec::new(alloc);
    for item in items_at(row, key) {
        let word = item.as_str().ok_or(malformed())?;
        words.push(String::from_str(alloc, word)?)?;
    }
    Ok(words)
}

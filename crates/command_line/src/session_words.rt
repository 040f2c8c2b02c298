//! The names and versions of sessions, and the sizes of generated pages, as words of the command line write them.

ghost use Rattle.std.specs.Prelude.{◌≡◌};
ghost use Rattle.std.specs.List.{list_all};
ghost use Rattle.command_line.specs.Command as spec;

use parking::LAST_VERSION;

// A generated page has at most so many parts.
const MOST_PARTS: u64 = 1000;

// A name has at most so many letters.
const LONGEST_NAME: usize = 64;

fn is_name_part(byte: u8) -> bool
    ensures { result ≡ spec.is_name_part byte }
{
    matches!(byte, b'A'..=b'Z' | b'a'..=b'z' | b'0'..=b'9' | b'-' | b'_')
}

fn is_digit(byte: u8) -> bool
    ensures { result ≡ spec.is_digit byte }
{
    matches!(byte, b'0'..=b'9')
}

// Whether a name may have so many letters.
fn is_name_length(length: usize) -> bool
    ensures { result ≡ spec.is_name_length length }
{
    1 <= length && length <= LONGEST_NAME
}

// Whether a name may have these letters.
fn are_name_parts(bytes: &[u8]) -> bool
    ensures { result ≡ list_all spec.is_name_part bytes.now }
{
    bytes.iter().all(|byte| is_name_part(*byte))
}

/// Whether a word names a session: it has 1 to 64 ASCII letters, digits, `-` or `_`.
pub fn is_session_name(word: &str) -> bool
    ensures { result ≡ spec.is_session_name word.now }
{
    let bytes = word.as_bytes();
    is_name_length(bytes.len()) && are_name_parts(bytes)
}

// The number that these digits write in decimal, unless it passes the last version.
fn number_of(word: &[u8]) -> Option<u64>
    ensures { result ≡ spec.number_from 0 word.now }
{
    let mut number = 0;
    for byte in word {
        if !is_digit(*byte) {
            return None;
        }
        let next = 10 * number + u64::from(*byte - b'0');
        if next > LAST_VERSION {
            return None;
        }
        number = next;
    }
    Some(number)
}

/// The version that a word writes in decimal, from 1 to the last one, without sign or leading zero.
pub fn version_of(word: &str) -> Option<u64>
    ensures { result ≡ spec.version_of word.now }
{
    match word.as_bytes() {
        [] | [b'0', ..] => None,
        digits => number_of(digits),
    }
}

/// The number of parts, from 1 to 1,000, that a word writes in decimal, without sign or leading zero.
pub fn parts_of(word: &str) -> Option<u32>
    ensures { result ≡ spec.parts_of word.now }
{
    match version_of(word) {
        Some(parts) if 1 <= parts && parts <= MOST_PARTS => Some(parts as u32),
        _ => None,
    }
}

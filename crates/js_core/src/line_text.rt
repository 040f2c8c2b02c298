//! How a text stands in a line.

ghost use Rattle.std.specs.Prelude.{◌≡◌, ◌<◌, [], ◌∷◌, ◌++◌, length, OnOk, OnErr, IfSome, IsTrue, MatchOption, take};
ghost use Rattle.std.specs.Char.{digit_char, to_ascii_uppercase};
ghost use Rattle.std.specs.Char.Utf16.{is_high_surrogate, is_low_surrogate, surrogate_pair_char};
ghost use Rattle.js_core.specs.LineText.{code_points, unit_escape, line_code, line_text};

use crate::memory::OutOfMemory;

/// Appends `\u` and the four upper-case hexadecimal digits of a unit. After an error nothing is appended.
pub fn push_unit_escape(out: &mut Vec<u8>, unit: u16) -> Result<(), OutOfMemory>
    ensures ok { OnOk result (out.new.items ≡ out.old.items ++ unit_escape unit) }
    ensures err { OnErr result (out.new.items ≡ out.old.items) }
{
    let escape = [
        b'\\',
        b'u',
        hex_digit(unit / 0x1000 % 16),
        hex_digit(unit / 0x100 % 16),
        hex_digit(unit / 0x10 % 16),
        hex_digit(unit % 16),
    ];
    out.extend_from_slice(&escape)?;
    Ok(())
}

fn hex_digit(value: u16) -> u8
    requires { value < 16 }
    ensures { result ≡ to_ascii_uppercase (digit_char value) }
{
    b"0123456789ABCDEF"[value as usize]
}

/// Takes back what was appended to the bytes after the first `length`, where the appending failed, and hands its answer
/// on.
pub fn truncate_on_error(
    out: &mut Vec<u8>,
    length: usize,
    pushed: Result<(), OutOfMemory>,
) -> Result<(), OutOfMemory>
    ensures same { result ≡ pushed }
    ensures ok { OnOk pushed (out.new.items ≡ out.old.items) }
    ensures err { OnErr pushed (out.new.items ≡ take length out.old.items) }
{
    if pushed.is_err() {
        out.truncate(length);
    }
    pushed
}

/// Appends a text as it stands in a line: a backslash is doubled, a control character or a lone surrogate becomes `\u`
/// and its four upper-case hexadecimal digits, and all else is UTF-8. After an error a part of it may be appended.
pub fn push_line_text(units: &[u16], out: &mut Vec<u8>) -> Result<(), OutOfMemory>
    ensures ok { OnOk result (out.new.items ≡ out.old.items ++ line_text units.now) }
    ensures err { OnErr result (take (length out.old.items) out.new.items ≡ out.old.items) }
{
    let mut rest = units;
    while let Some((point, after)) = split_code_point(rest) {
        push_code_point(out, point)?;
        rest = after;
    }
    Ok(())
}

fn push_code_point(out: &mut Vec<u8>, point: u32) -> Result<(), OutOfMemory>
    requires { point < 0x11_0000 }
    ensures ok { OnOk result (out.new.items ≡ out.old.items ++ line_code point) }
    ensures err { OnErr result (out.new.items ≡ out.old.items) }
{
    match char::from_u32(point) {
        Some('\\') => {
            out.extend_from_slice(b"\\\\")?;
            Ok(())
        }
        Some(character) if !character.is_control() => {
            let mut bytes = [0; 4];
            out.extend_from_slice(character.encode_utf8(&mut bytes).as_bytes())?;
            Ok(())
        }
        _ => push_unit_escape(out, point as u16),
    }
}

// The first code point of the units, and the units after it.
fn split_code_point(units: &[u16]) -> Option<(u32, &[u16])>
    ensures points { MatchOption result (units.now ≡ [])
        (λ found. code_points units.now ≡ found.0 ∷ code_points found.1.now) }
    ensures shorter { IfSome result (λ found. length found.1.now < length units.now) }
    ensures in_range { IfSome result (λ found. found.0 < 0x11_0000) }
{
    match units {
        [] => None,
        [high, low, rest @ ..] if is_high_surrogate(*high) && is_low_surrogate(*low) => {
            Some((pair_code_point(*high, *low), rest))
        }
        [unit, rest @ ..] => Some((u32::from(*unit), rest)),
    }
}

fn is_high_surrogate(unit: u16) -> bool
    ensures { result ≡ is_high_surrogate unit }
{
    matches!(unit, 0xD800..=0xDBFF)
}

fn is_low_surrogate(unit: u16) -> bool
    ensures { result ≡ is_low_surrogate unit }
{
    matches!(unit, 0xDC00..=0xDFFF)
}

fn pair_code_point(high: u16, low: u16) -> u32
    requires high { IsTrue (is_high_surrogate high) }
    requires low { IsTrue (is_low_surrogate low) }
    ensures { result ≡ surrogate_pair_char high low }
{
    0x1_0000 + (u32::from(high) - 0xD800) * 0x400 + (u32::from(low) - 0xDC00)
}

//! String literals (ECMA-262 5.1 section 7.8.4).

ghost use Rattle.std.specs.Prelude.{◌≡◌, ◌++◌, take, length, OnOk, OnErr};
ghost use Rattle.std.specs.List.{flat_map};
ghost use Rattle.js_print.specs.Spelling as spec;

use js_core::{OutOfMemory, push_unit_escape};

/// Appends a string literal in double quotes. Units from 0020 to 007E stand for themselves, but `"` and a backslash come
/// behind a backslash, and `<` and all other units are `\u` and four upper-case hexadecimal digits. After an error a part
/// of it may be appended.
pub fn push_string(units: &[u16], out: &mut Vec<u8>) -> Result<(), OutOfMemory>
    ensures ok { OnOk result (out.new.items ≡ out.old.items ++ spec.string_text units.now) }
    ensures err { OnErr result (take (length out.old.items) out.new.items ≡ out.old.items) }
{
    out.push(b'"')?;
    push_units(units, out)?;
    out.push(b'"')?;
    Ok(())
}

fn push_units(units: &[u16], out: &mut Vec<u8>) -> Result<(), OutOfMemory>
    ensures ok { OnOk result (out.new.items ≡ out.old.items
        ++ flat_map spec.string_unit units.now) }
    ensures err { OnErr result (take (length out.old.items) out.new.items ≡ out.old.items) }
{
    let mut rest = units;
    while let [unit, after @ ..] = rest {
        push_unit(*unit, out)?;
        rest = after;
    }
    Ok(())
}

fn push_unit(unit: u16, out: &mut Vec<u8>) -> Result<(), OutOfMemory>
    ensures ok { OnOk result (out.new.items ≡ out.old.items ++ spec.string_unit unit) }
    ensures err { OnErr result (out.new.items ≡ out.old.items) }
{
    if is_plain(unit) {
        out.push(unit as u8)?;
        return Ok(());
    }
    match unit {
        0x22 => push_escaped(b"\\\"", out),
        0x5C => push_escaped(b"\\\\", out),
        _ => push_unit_escape(out, unit),
    }
}

/// Whether a unit stands for itself in a string literal.
pub fn is_plain(unit: u16) -> bool
    ensures value { result ≡ spec.is_plain unit }
{
    matches!(unit, 0x20..=0x7E) && unit != 0x22 && unit != 0x5C && unit != 0x3C
}

fn push_escaped(bytes: &[u8], out: &mut Vec<u8>) -> Result<(), OutOfMemory>
    ensures ok { OnOk result (out.new.items ≡ out.old.items ++ bytes.now) }
    ensures err { OnErr result (out.new.items ≡ out.old.items) }
{
    out.extend_from_slice(bytes)?;
    Ok(())
}

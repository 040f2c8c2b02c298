//! The classes of units that tokens are made of.

ghost use Rattle.std.specs.Prelude.{◌≡◌};
ghost use Rattle.std.specs.Char.{digit_value as value_of_digit};
ghost use Rattle.js_lexer.specs.Characters as spec;

/// Whether an identifier may begin with the unit (section 7.6). Half of a surrogate pair may not.
#[tactic(auto, unfolding(crate::specs::Characters::is_identifier_start))]
pub fn is_identifier_start(unit: u16) -> bool
    ensures { result ≡ spec.is_identifier_start unit }
{
    if unit == u16::from(b'$') || unit == u16::from(b'_') {
        return true;
    }
    match char::from_u32(u32::from(unit)) {
        Some(character) => unicode_ident::is_xid_start(character),
        None => false,
    }
}

/// Whether an identifier may go on with the unit (section 7.6).
#[tactic(auto, unfolding(crate::specs::Characters::is_identifier_part))]
pub fn is_identifier_part(unit: u16) -> bool
    ensures { result ≡ spec.is_identifier_part unit }
{
    if unit == u16::from(b'$') || unit == 0x200c || unit == 0x200d {
        return true;
    }
    match char::from_u32(u32::from(unit)) {
        Some(character) => unicode_ident::is_xid_continue(character),
        None => false,
    }
}

/// The value of a digit or an ASCII letter, and 36 for every other unit.
pub fn digit_value(unit: u16) -> u16
    ensures { result ≡ value_of_digit unit }
{
    match unit {
        0x30..=0x39 => unit - 0x30,
        0x41..=0x5a => unit - 0x37,
        0x61..=0x7a => unit - 0x57,
        _ => 36,
    }
}

/// Whether the unit is a decimal digit.
pub fn is_decimal_digit(unit: u16) -> bool
    ensures { result ≡ spec.is_decimal_digit unit }
{
    digit_value(unit) < 10
}

/// Whether the unit is a hexadecimal digit.
pub fn is_hex_digit(unit: u16) -> bool
    ensures { result ≡ spec.is_hex_digit unit }
{
    digit_value(unit) < 16
}

/// Whether the unit is `"` or `'`.
pub fn is_quote(unit: u16) -> bool
    ensures { result ≡ spec.is_quote unit }
{
    unit == u16::from(b'"') || unit == u16::from(b'\'')
}

//! The classes of units that pages are made of, and their longest runs.

ghost use Rattle.std.specs.Prelude.{◌≡◌, ◌==◌, ◌≤◌, ◌-◌, length, drop};
ghost use Rattle.std.specs.Char.{digit_value as value_of_digit, is_digit, to_ascii_lowercase};
ghost use Rattle.std.specs.List.{list_all, prefix_len};
ghost use Rattle.dom_tree.specs.Name as name;
ghost use Rattle.page_tokens.specs.Characters as spec;

/// Whether the unit is TAB, LF, FF or SP.
pub fn is_space(unit: u16) -> bool
    ensures { result ≡ spec.is_space unit }
{
    unit == 0x09 || unit == 0x0a || unit == 0x0c || unit == 0x20
}

/// Whether the unit is `"` or `'`.
pub fn is_quote(unit: u16) -> bool
    ensures { result ≡ spec.is_quote unit }
{
    unit == u16::from(b'"') || unit == u16::from(b'\'')
}

/// Whether the unit is an ASCII letter.
pub fn is_letter(unit: u16) -> bool
    ensures { result ≡ spec.is_letter unit }
{
    matches!(unit, 0x41..=0x5a | 0x61..=0x7a)
}

/// Whether the unit is an ASCII letter or digit.
pub fn is_letter_or_digit(unit: u16) -> bool
    ensures { result ≡ spec.is_letter_or_digit unit }
{
    is_letter(unit) || matches!(unit, 0x30..=0x39)
}

/// Whether a value without quotes may have the unit.
pub fn is_value_part(unit: u16) -> bool
    ensures { result ≡ spec.is_value_part unit }
{
    !(is_space(unit)
        || is_quote(unit)
        || unit == 0x3c
        || unit == 0x3d
        || unit == 0x3e
        || unit == 0x60)
}

/// Whether a name may begin with the unit.
pub fn is_name_start(unit: u16) -> bool
    ensures { result ≡ name.is_name_start unit }
{
    matches!(unit, 0x41..=0x5a | 0x61..=0x7a | 0x5f | 0x3a)
}

/// Whether a name may go on with the unit.
pub fn is_name_part(unit: u16) -> bool
    ensures { result ≡ name.is_name_part unit }
{
    is_name_start(unit) || matches!(unit, 0x30..=0x39 | 0x2d | 0x2e)
}

/// The unit, in lower case where it is an ASCII letter.
pub fn lower_case(unit: u16) -> u16
    ensures { result ≡ to_ascii_lowercase unit }
{
    if matches!(unit, 0x41..=0x5a) {
        unit + 0x20
    } else {
        unit
    }
}

/// The value of a digit or an ASCII letter, and 36 for every other unit.
pub fn digit_value(unit: u16) -> u16
    ensures { result ≡ value_of_digit unit }
{
    match unit {
        0x30..=0x39 => unit - 0x30,
        0x41..=0x5a => unit - 0x37,
        0x61..=0x7a => unit - 0x57,
        _ => 36,
    }
}

/// How much white space stands in front.
pub fn space_len(text: &[u16]) -> usize
    ensures read { result ≡ prefix_len spec.is_space text.now }
    ensures within { result ≤ length text.now }
{
    text.iter().take_while(|unit| is_space(**unit)).count()
}

/// How many units that a name may go on with stand in front.
pub fn name_len(text: &[u16]) -> usize
    ensures read { result ≡ prefix_len name.is_name_part text.now }
    ensures within { result ≤ length text.now }
{
    text.iter().take_while(|unit| is_name_part(**unit)).count()
}

/// How many units that a value without quotes may have stand in front.
pub fn value_len(text: &[u16]) -> usize
    ensures read { result ≡ prefix_len spec.is_value_part text.now }
    ensures within { result ≤ length text.now }
{
    text.iter().take_while(|unit| is_value_part(**unit)).count()
}

/// How many ASCII letters and digits stand in front.
pub fn word_len(text: &[u16]) -> usize
    ensures read { result ≡ prefix_len spec.is_letter_or_digit text.now }
    ensures within { result ≤ length text.now }
{
    text.iter()
        .take_while(|unit| is_letter_or_digit(**unit))
        .count()
}

/// How many digits stand in front.
pub fn digits_len(radix: u32, text: &[u16]) -> usize
    ensures read { result ≡ prefix_len (λ u. is_digit u radix) text.now }
    ensures within { result ≤ length text.now }
{
    text.iter()
        .take_while(|unit| u32::from(digit_value(**unit)) < radix)
        .count()
}

/// Whether the text is white space alone.
pub fn is_blank(text: &[u16]) -> bool
    ensures { result ≡ list_all spec.is_space text.now }
{
    text.iter().all(|unit| is_space(*unit))
}

/// How many units stand before the first that is this one.
pub fn len_before(end: u16, text: &[u16]) -> usize
    ensures read { result ≡ prefix_len (spec.is_other end) text.now }
    ensures within { result ≤ length text.now }
{
    text.iter().take_while(|unit| **unit != end).count()
}

/// The text behind the white space in front.
pub fn behind_space(text: &[u16]) -> &[u16]
    ensures read { result.now ≡ spec.behind spec.is_space text.now }
    ensures within { length result.now ≤ length text.now }
{
    &text[space_len(text)..]
}

/// The text without so many units in front.
pub fn without(count: usize, text: &[u16]) -> &[u16]
    ensures read { result.now ≡ drop count text.now }
    ensures len { length result.now ≡ length text.now - count }
{
    if count < text.len() {
        &text[count..]
    } else {
        &[]
    }
}

/// Whether the text begins with the unit.
pub fn begins_with(unit: u16, text: &[u16]) -> bool
    ensures { result ≡ spec.begins_with (λ u. u == unit) text.now }
{
    match text {
        [] => false,
        [first, ..] => *first == unit,
    }
}

/// Whether the text begins with these codes.
pub fn is_front(codes: &[u8], text: &[u16]) -> bool
    ensures { result ≡ spec.is_front codes.now text.now }
{
    let mut text = text;
    let mut codes = codes;
    while let [code, more @ ..] = codes {
        let [unit, behind @ ..] = text else {
            return false;
        };
        if *unit != u16::from(*code) {
            return false;
        }
        text = behind;
        codes = more;
    }
    true
}

/// Whether the text begins with these lower-case codes, in whatever case.
pub fn is_front_in_any_case(codes: &[u8], text: &[u16]) -> bool
    ensures { result ≡ spec.is_front_in_any_case codes.now text.now }
{
    let mut text = text;
    let mut codes = codes;
    while let [code, more @ ..] = codes {
        let [unit, behind @ ..] = text else {
            return false;
        };
        if lower_case(*unit) != u16::from(*code) {
            return false;
        }
        text = behind;
        codes = more;
    }
    true
}

/// Whether the text begins with the lower-case name, in whatever case.
pub fn is_name_front(name: &[u16], text: &[u16]) -> bool
    ensures { result ≡ spec.is_front_in_any_case name.now text.now }
{
    let mut text = text;
    let mut name = name;
    while let [letter, more @ ..] = name {
        let [unit, behind @ ..] = text else {
            return false;
        };
        if lower_case(*unit) != *letter {
            return false;
        }
        text = behind;
        name = more;
    }
    true
}

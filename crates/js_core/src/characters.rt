//! White space and line ends.

ghost use Rattle.std.specs.Prelude.{◌≡◌};
ghost use Rattle.js_core.specs.Characters as spec;

/// Whether the unit is white space (ECMA-262 5.1 section 7.2).
#[tactic(auto, unfolding(crate::specs::Characters::is_white_space))]
pub fn is_white_space(unit: u16) -> bool
    ensures { result ≡ spec.is_white_space unit }
{
    matches!(
        unit,
        0x09 | 0x0b | 0x0c | 0x20 | 0xa0 | 0x1680 | 0x2000..=0x200a
            | 0x202f
            | 0x205f
            | 0x3000
            | 0xfeff
    )
}

/// Whether the unit ends a line (section 7.3).
#[tactic(auto, unfolding(crate::specs::Characters::is_line_end))]
pub fn is_line_end(unit: u16) -> bool
    ensures { result ≡ spec.is_line_end unit }
{
    matches!(unit, 0x0a | 0x0d | 0x2028 | 0x2029)
}

//! What holds of the definitions.

ghost use Rattle.std.specs.Prelude.{◌≡◌, true, false};
ghost use Rattle.std.specs.Prelude.{encode_utf8_all};
ghost use Rattle.std.specs.List.{list_all, list_any};
ghost use Rattle.js_core.specs.Height.{stmts_height};
ghost use Rattle.js_core.specs.LineText.{line_text};
ghost use Rattle.js_core.specs.Spelling.{is_reserved_word};
ghost use Rattle.js_core.specs.Text.{utf16_of};
ghost use Rattle.js_core.specs.Whole.{whole_of};
ghost use Rattle.js_core.specs.Worked as worked;
ghost use Rattle.js_core.specs.Worked.{Values};

/// The worked texts have the units and stand in lines as they say.
#[tactic(auto, using(crate::proofs::Worked::controls_are_escaped, crate::proofs::Worked::surrogates_are_joined, crate::proofs::Worked::units_are_taken))]
pub fn law_worked_texts()
    ensures controls { Values line_text worked.controls }
    ensures surrogates { Values line_text worked.surrogates }
    ensures units { Values (λ cs. utf16_of (encode_utf8_all cs)) worked.units }
{}

/// The worked words are reserved, or are not.
#[tactic(auto, using(crate::proofs::Worked::words_are_reserved))]
pub fn law_worked_words()
    ensures { (list_all is_reserved_word worked.reserved_words ≡ true)
        × (list_any is_reserved_word worked.other_words ≡ false) }
{}

/// The worked numbers are in range, or are not; the worked trees are as high as they say.
#[tactic(auto, using(crate::proofs::Worked::numbers_are_in_range, crate::proofs::Worked::heights_are_counted))]
pub fn law_worked_numbers()
    ensures range { Values whole_of worked.numbers }
    ensures heights { Values stmts_height worked.heights }
{}

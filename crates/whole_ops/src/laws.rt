//! What holds of the definitions.

ghost use Rattle.js_core.specs.Worked.{Values};
ghost use Rattle.whole_ops.specs.Conversions.{is_true, number_of, text_of_value};
ghost use Rattle.whole_ops.specs.Equality.{loose_of, same_of};
ghost use Rattle.whole_ops.specs.Numeral.{text_of_whole, to_whole};
ghost use Rattle.whole_ops.specs.Order.{text_less};
ghost use Rattle.whole_ops.specs.Worked as worked;

/// The worked texts write the numbers, and are written for them, and are ordered, as they say.
#[tactic(auto, using(crate::proofs::Worked::numerals_are_read, crate::proofs::Worked::numbers_are_written, crate::proofs::Worked::texts_are_ordered))]
pub fn law_worked_texts()
    ensures numerals { Values to_whole worked.numerals }
    ensures texts { Values text_of_whole worked.texts }
    ensures orders { Values (λ p. text_less p.0 p.1) worked.orders }
{}

/// The worked values are the same, or equal, or neither, as they say.
#[tactic(auto, using(crate::proofs::Worked::objects_are_the_same, crate::proofs::Worked::objects_are_equal))]
pub fn law_worked_equality()
    ensures same { Values (λ p. same_of p.0 p.1) worked.same }
    ensures equal { Values (λ p. loose_of p.0 p.1) worked.equal }
{}

/// The worked values have the numbers, truths and texts that they say.
#[tactic(auto, using(crate::proofs::Worked::values_are_numbers, crate::proofs::Worked::values_are_truths, crate::proofs::Worked::values_are_texts))]
pub fn law_worked_conversions()
    ensures numbers { Values number_of worked.numbers }
    ensures truths { Values is_true worked.truths }
    ensures texts { Values text_of_value worked.words }
{}

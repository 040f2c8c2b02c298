//! What holds of the definitions.

ghost use Rattle.js_core.specs.Worked.{Values};
ghost use Rattle.js_values.specs.Line.{line_of};
ghost use Rattle.js_values.specs.Throw.{thrown_text};
ghost use Rattle.js_values.specs.Worked as worked;

/// The worked lines are written, and the errors told, as they say.
#[tactic(auto, using(crate::proofs::Worked::lines_are_written, crate::proofs::Worked::errors_are_told))]
pub fn law_worked_lines()
    ensures lines { Values line_of worked.lines }
    ensures errors { Values thrown_text worked.thrown }
{}

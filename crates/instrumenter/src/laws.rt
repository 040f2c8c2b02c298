//! What holds of opened scripts.

ghost use Rattle.instrumenter.specs.Laws.{OpenedScriptsAreLow};

/// An opened script of a plain page is as low as a form page asks, and so is each of its functions.
pub fn law_opened_scripts_are_low()
    ensures { OpenedScriptsAreLow }
{}

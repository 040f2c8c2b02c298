//! What opening scopes makes of scripts of plain pages.

ghost use Rattle.instrumenter.specs.Opened.{OpenedScriptsAreForm};

/// An opened script of a plain page is a script of a form page: some tokens have its tree, it breaks no early rule, it is low, and
/// each variable that a function inside uses is one that a saved page can rebuild.
pub fn law_opened_scripts_are_form()
    ensures { OpenedScriptsAreForm }
{}

//! What holds of printed pages.

ghost use Rattle.printed_pages.specs.Printed.{AcceptedScriptsBeginStrict, AcceptedScriptsHaveSyntax, FramedScriptsAreAccepted, PrintedPagesAreAccepted};

use js_grammar::law_reading_is_the_grammar;
use js_print::{
    law_printed_scripts_are_read_again, law_syntax_is_what_tokens_have, law_tokens_can_be_written,
};
use page_reader::{law_replaced_scripts, law_script_pages, law_script_units};

/// A text that is read again as a script of a form page, in the frame of a saved page, is accepted with that script.
pub fn law_framed_scripts_are_accepted()
    ensures { FramedScriptsAreAccepted }
{
    law_script_pages();
}

/// A page with printed scripts in the places of its own, behind the mark of form pages, is accepted as a form page with the same nodes
/// and these scripts, where each is a tree that some tokens have, begins with the strict directive, breaks no early rule, is in form
/// and is low.
pub fn law_printed_pages_are_accepted()
    ensures { PrintedPagesAreAccepted }
{
    law_printed_scripts_are_read_again();
    law_replaced_scripts();
}

/// Each script of an accepted page is a tree that some tokens have, so it can be printed.
pub fn law_accepted_scripts_have_syntax()
    ensures { AcceptedScriptsHaveSyntax }
{
    law_tokens_can_be_written();
    law_syntax_is_what_tokens_have();
    law_script_units();
}

/// Each script of an accepted page begins with the strict directive, as a tree.
pub fn law_accepted_scripts_begin_strict()
    ensures { AcceptedScriptsBeginStrict }
{
    law_reading_is_the_grammar();
}

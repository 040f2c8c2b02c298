//! What holds of moved pages.

ghost use Rattle.moved_pages.specs.Accepted.{SavedPagesAreAccepted};
ghost use Rattle.moved_pages.specs.Moved.{AcceptedPagesArePlain, AcceptedScriptsAreInForm, MovedPagesGoOn, MovesJoin};

use js_print::{
    law_lined_scripts_are_read_again, law_syntax_is_what_tokens_have, law_tokens_can_be_written,
};
use page_meaning::law_lines_grow;
use page_reader::{law_script_pages, law_script_units};
use page_rest::law_pages_rest;
use page_writer::{law_pages_are_short, law_saved_scripts_are_form};
use rebuild_plan::{law_plans_are_few, law_plans_stand};
use rebuilding::{
    law_rebuilt_pages_go_on, law_saved_again, law_scripts_rebuild, law_scripts_take_few_steps,
};

/// The saved page of a page at rest, whose statements can be written, is accepted as a form page.
pub fn law_saved_pages_are_accepted()
    ensures { SavedPagesAreAccepted }
{
    law_saved_scripts_are_form();
    law_lined_scripts_are_read_again();
    law_script_pages();
}

/// A moved page behaves as if it had never moved: the text of a page in form is accepted as a page in form, which loads without a line
/// and puts out, under every list of later events, exactly the lines that the page puts out for them after the earlier ones.
pub fn law_moved_pages_go_on()
    ensures { MovedPagesGoOn }
{
    law_pages_are_short();
    law_saved_scripts_are_form();
    law_lined_scripts_are_read_again();
    law_script_pages();
    law_plans_stand();
    law_plans_are_few();
    law_pages_rest();
    law_scripts_rebuild();
    law_rebuilt_pages_go_on();
    law_saved_again();
    law_scripts_take_few_steps();
}

/// A page that is moved and then moved again goes on as the first one after all events: any number of moves
/// gives the lines of none.
pub fn law_moves_join()
    ensures { MovesJoin }
{
    law_lines_grow();
}

/// A script that is accepted and in form is one of a form page.
pub fn law_accepted_scripts_are_in_form()
    ensures { AcceptedScriptsAreInForm }
{
    law_tokens_can_be_written();
    law_syntax_is_what_tokens_have();
    law_script_units();
}

/// No attribute of an accepted page has a name that begins with `on`.
pub fn law_accepted_pages_are_plain()
    ensures { AcceptedPagesArePlain }
{}

//! What holds of pages with opened scopes.

ghost use Rattle.opened_pages.specs.Opened.{OpenedPagesAreAccepted, OpenedPagesPutOutTheSame};

use agreement::law_plain_pages_agree;
use instrumenter::law_opened_scripts_are_form;
use printed_pages::{
    law_accepted_scripts_begin_strict, law_accepted_scripts_have_syntax,
    law_printed_pages_are_accepted,
};

/// The text of an accepted page with opened scopes is accepted as a form page, with the opened scripts.
pub fn law_opened_pages_are_accepted()
    ensures { OpenedPagesAreAccepted }
{
    law_opened_scripts_are_form();
    law_printed_pages_are_accepted();
    law_accepted_scripts_have_syntax();
    law_accepted_scripts_begin_strict();
}

/// An opened page puts out the lines of the page, under all events.
pub fn law_opened_pages_put_out_the_same()
    ensures { OpenedPagesPutOutTheSame }
{
    law_plain_pages_agree();
    law_accepted_scripts_have_syntax();
}

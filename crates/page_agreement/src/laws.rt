//! What holds where two pages agree.

ghost use Rattle.page_agreement.specs.Laws.{AgreeingPagesGoOn, EqualCompactsAgree, RebuiltPagesAgree};

use agreement::law_events_agree;
use page_rest::law_pages_rest;
use page_writer::law_saved_scripts_are_form;
use rebuilding::law_saved_again;

/// Two pages at rest that agree put out the same lines under every list of later events.
pub fn law_agreeing_pages_go_on()
    ensures { AgreeingPagesGoOn }
{
    law_events_agree();
}

/// Two pages at rest whose compact pages are equal agree, whatever the order of their things.
pub fn law_equal_compacts_agree()
    ensures { EqualCompactsAgree }
{}

/// The page that a saved page loads as is at rest, and agrees with the one that was saved.
pub fn law_rebuilt_pages_agree()
    ensures { RebuiltPagesAgree }
{
    law_saved_again();
    law_pages_rest();
    law_saved_scripts_are_form();
}

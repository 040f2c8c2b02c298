//! What holds of generated pages and their lists of events.

ghost use Rattle.generated_pages.specs.Lists.{ListsAreRead};
ghost use Rattle.generated_pages.specs.Pages.{PagesAreAccepted};
ghost use Rattle.generated_pages.specs.Sizes.{FilesFit};

use page_reader::law_script_pages;

/// The page with any number of parts that the language has is accepted, as a plain page with an empty body and one script.
pub fn law_generated_pages_are_accepted()
    ensures { PagesAreAccepted }
{
    law_script_pages();
}

/// The list of events for a page with up to 99,999 parts is read as the events that are chosen for it, one more than the parts.
pub fn law_generated_lists_are_read()
    ensures { ListsAreRead }
{}

/// The page with up to 99,999 parts has no more bytes than a page file may have, and its list no more than an event file.
pub fn law_generated_files_fit()
    ensures { FilesFit }
{}

//! What holds of pages in form.

ghost use Rattle.page_rest.specs.Asks.{FunctionsAreAsked};
ghost use Rattle.page_rest.specs.Laws.{PagesHaveWalks, PagesRest};

use agreement::law_standing_pages_agree;

/// Each function in a script of a form page is a script of one, in a call that binds its needed variables.
pub fn law_functions_are_asked()
    ensures { FunctionsAreAsked }
{}

/// A page in form is at rest between two events, and its functions can be made again.
pub fn law_pages_rest()
    ensures { PagesRest }
{
    law_standing_pages_agree();
}

/// Every page has a walk: what can be reached in it, by age.
pub fn law_pages_have_walks()
    ensures { PagesHaveWalks }
{}

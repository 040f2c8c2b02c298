//! What holds of pages that agree.

ghost use Rattle.agreement.specs.Laws.{
  EventsAgree,
  OpenedPagesAgree,
  PagesAgree,
  PlainPagesAgree,
  RowsAgree,
  StandingPagesAgree,
};

use page_meaning::law_heaps_stay_sound;

/// Each built-in function keeps agreement (ECMA-262 5.1 section 15).
pub fn law_rows_agree()
    ensures { RowsAgree }
{}

/// The same host events put out the same lines in pages that agree.
pub fn law_events_agree()
    ensures { EventsAgree }
{}

/// Each page agrees with itself.
pub fn law_pages_agree()
    ensures { PagesAgree }
{
    law_heaps_stay_sound();
}

/// A page whose scripts stand where nothing is opened agrees with itself, and its functions stand so.
pub fn law_standing_pages_agree()
    ensures { StandingPagesAgree }
{
    law_heaps_stay_sound();
}

/// A page puts out the same lines with its scopes opened.
pub fn law_opened_pages_agree()
    ensures { OpenedPagesAgree }
{
    law_heaps_stay_sound();
}

/// A page of plain scripts puts out the same lines with its scopes opened.
pub fn law_plain_pages_agree()
    ensures { PlainPagesAgree }
{
    law_heaps_stay_sound();
}

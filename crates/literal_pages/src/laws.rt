//! What holds of accepted pages and of events that are read.

ghost use Rattle.literal_pages.specs.Literal.{AcceptedPagesAreLiteral, ReadEventsAreLiteral};
ghost use Rattle.literal_pages.specs.Written.{AcceptedPagesAreWritten, ReadPagesAreWritten};

use js_print::law_tokens_can_be_written;
use written_pages::law_pages_are_written;

/// The names, texts and numbers of the nodes and scripts of an accepted page of at most 16,777,216 bytes can be written: texts are of 16-bit
/// units and no longer than the page, and numbers are those of the language.
pub fn law_accepted_pages_are_literal()
    ensures { AcceptedPagesAreLiteral }
{
    law_tokens_can_be_written();
}

/// So can the texts of the events that a file of at most 4,194,304 bytes holds.
pub fn law_read_events_are_literal()
    ensures { ReadEventsAreLiteral }
{}

/// What such a page reaches can be written, under events whose texts can.
pub fn law_accepted_pages_are_written()
    ensures { AcceptedPagesAreWritten }
{
    law_accepted_pages_are_literal();
    law_pages_are_written();
}

/// So can what such a page reaches under the events that such a file holds.
pub fn law_read_pages_are_written()
    ensures { ReadPagesAreWritten }
{
    law_accepted_pages_are_literal();
    law_pages_are_written();
}

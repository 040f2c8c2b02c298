//! What a page reaches can be written. A law is a function that says it and does nothing.

ghost use Rattle.written_pages.specs.Laws.{PagesStayLiteral};
ghost use Rattle.written_pages.specs.Writing.{PagesCanBeWritten};

/// A page whose nodes, scripts and events are literal stays so.
pub fn law_pages_are_literal()
    ensures { PagesStayLiteral }
{}

/// What such a page reaches can be written.
pub fn law_pages_are_written()
    ensures { PagesCanBeWritten }
{}

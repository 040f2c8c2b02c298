//! What keeps a page literal. A law is a function that says it and does nothing.

ghost use Rattle.literal_values.specs.Laws.{PristineIsLiteral, ReadsAreLiteral, StepsStayLiteral};

/// What is done to a page with literal parts keeps it literal.
pub fn law_steps_stay_literal()
    ensures { StepsStayLiteral }
{}

/// What is read of a literal page is literal.
pub fn law_reads_are_literal()
    ensures { ReadsAreLiteral }
{}

/// A page before its scripts is literal, where its nodes are.
pub fn law_pristine_is_literal()
    ensures { PristineIsLiteral }
{}

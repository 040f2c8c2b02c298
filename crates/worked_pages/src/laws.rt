//! Worked scripts and pages put out the lines that the rules give them.

ghost use Rattle.worked_pages.specs.Worked.{PutOut};
ghost use Rattle.worked_pages.specs.Expressions as expressions;
ghost use Rattle.worked_pages.specs.Objects as made;
ghost use Rattle.worked_pages.specs.Pages as pages;
ghost use Rattle.worked_pages.specs.Statements as statements;

/// The worked scripts on expressions, objects and functions put out the lines that the rules give them.
#[tactic(auto, using(crate::proofs::Scripts::references_put_out, crate::proofs::Scripts::operators_put_out, crate::proofs::Scripts::objects_put_out, crate::proofs::Scripts::functions_put_out))]
pub fn law_worked_expressions()
    ensures references { PutOut expressions.references }
    ensures operators { PutOut expressions.operators }
    ensures objects { PutOut expressions.objects }
    ensures functions { PutOut expressions.functions }
{}

/// The worked scripts on statements and declarations put out the lines that the rules give them.
#[tactic(auto, using(crate::proofs::Scripts::loops_put_out, crate::proofs::Scripts::exceptions_put_out, crate::proofs::Scripts::switches_put_out, crate::proofs::Scripts::declarations_put_out))]
pub fn law_worked_statements()
    ensures loops { PutOut statements.loops }
    ensures exceptions { PutOut statements.exceptions }
    ensures switches { PutOut statements.switches }
    ensures declarations { PutOut statements.declarations }
{}

/// The worked scripts on `Object`, arrays and errors that are made put out the lines that the rules give them.
#[tactic(auto, using(crate::proofs::Scripts::made_objects_put_out, crate::proofs::Scripts::constructors_put_out))]
pub fn law_worked_objects()
    ensures objects { PutOut made.objects }
    ensures constructors { PutOut made.constructors }
{}

/// The worked pages on nodes, events and timers put out the lines that the rules give them.
#[tactic(auto, using(crate::proofs::Pages::row_2_puts_out, crate::proofs::Pages::row_10_puts_out, crate::proofs::Pages::row_11_puts_out, crate::proofs::Pages::row_12_puts_out, crate::proofs::Pages::row_13_puts_out, crate::proofs::Pages::row_20_puts_out, crate::proofs::Pages::row_23_puts_out, crate::proofs::Pages::row_24_puts_out, crate::proofs::Pages::row_25_puts_out, crate::proofs::Pages::row_r81_puts_out, crate::proofs::Pages::row_r82_puts_out, crate::proofs::Pages::row_r91_puts_out, crate::proofs::Pages::row_r92_puts_out, crate::proofs::Pages::stopped_event_puts_out, crate::proofs::Pages::again_puts_out, crate::proofs::Pages::nested_puts_out, crate::proofs::Pages::hosts_puts_out, crate::proofs::Pages::texts_puts_out, crate::proofs::Pages::replacing_puts_out, crate::proofs::Pages::timers_puts_out, crate::proofs::Pages::two_scripts_puts_out, crate::proofs::Pages::early_stop_puts_out))]
pub fn law_worked_pages()
    ensures row_2 { pages.PutsOut pages.row_2 }
    ensures row_10 { pages.PutsOut pages.row_10 }
    ensures row_11 { pages.PutsOut pages.row_11 }
    ensures row_12 { pages.PutsOut pages.row_12 }
    ensures row_13 { pages.PutsOut pages.row_13 }
    ensures row_20 { pages.PutsOut pages.row_20 }
    ensures row_23 { pages.PutsOut pages.row_23 }
    ensures row_24 { pages.PutsOut pages.row_24 }
    ensures row_25 { pages.PutsOut pages.row_25 }
    ensures row_r81 { pages.PutsOut pages.row_r81 }
    ensures row_r82 { pages.PutsOut pages.row_r82 }
    ensures row_r91 { pages.PutsOut pages.row_r91 }
    ensures row_r92 { pages.PutsOut pages.row_r92 }
    ensures stopped_event { pages.PutsOut pages.stopped_event }
    ensures again { pages.PutsOut pages.again }
    ensures nested { pages.PutsOut pages.nested }
    ensures hosts { pages.PutsOut pages.hosts }
    ensures texts { pages.PutsOut pages.texts }
    ensures replacing { pages.PutsOut pages.replacing }
    ensures timers { pages.PutsOut pages.timers }
    ensures two_scripts { pages.PutsOut pages.two_scripts }
    ensures early_stop { pages.PutsOutAfterFew 2 pages.early_stop }
{}

//! What holds of the meaning.

ghost use Rattle.js_values.specs.declared.built_in.BuiltIn.{BuiltIn};
ghost use Rattle.page_meaning.specs.Ages.{AreByAge, AreCounted, IsPlaced};
ghost use Rattle.page_meaning.specs.Laws.{KeepsKinds, LinesGrow, LoadsSound, StaysSound, TasksKeep};

/// Whatever a task does, steps fall, lines stay, and the heap changes by its own calls alone.
#[tactic(auto, using(crate::proofs::Keeping::tasks_keep))]
pub fn law_tasks_keep()
    ensures { TasksKeep }
{}

/// No host event takes a line back.
#[tactic(auto, using(crate::proofs::Keeping::lines_grow))]
pub fn law_lines_grow()
    ensures { LinesGrow }
{}

/// A sound heap stays sound, and an old object keeps its prototype and its class; every page that is loaded is sound.
#[tactic(auto, using(crate::proofs::Keeping::stays_sound, crate::proofs::Keeping::keeps_kinds, crate::proofs::Keeping::loads_sound))]
pub fn law_heaps_stay_sound()
    ensures sound { StaysSound }
    ensures kinds { KeepsKinds }
    ensures loaded { LoadsSound }
{}

/// Each built-in function is at its place, the built-in objects are by age, and the document's object is the first after them.
#[tactic(auto, using(crate::proofs::Ages::functions_placed, crate::proofs::Ages::ages_walked, crate::proofs::Ages::built_ins_counted))]
pub fn law_built_ins_by_age()
    ensures placed { (which : BuiltIn) → IsPlaced which }
    ensures walked { AreByAge }
    ensures counted { AreCounted }
{}

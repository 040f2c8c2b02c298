//! What holds of the stages of a page that is read.

ghost use Rattle.std.specs.Prelude.{ℕ, List};
ghost use Rattle.outcomes.specs.Lawful.{AreDecided, AreExclusive, nothing_before};
ghost use Rattle.read_files.specs.Stages.{accepting, reading};

use page_check::law_one_answer;

/// The stages of reading exclude each other's causes, and at each of them there is a cause or it is passed.
pub fn law_reading_is_lawful()
    ensures accepting_excludes { (p : List ℕ) → AreExclusive (accepting p) }
    ensures accepting_decides { (p : List ℕ) → AreDecided nothing_before (accepting p) }
    ensures reading_excludes { (p e : List ℕ) → AreExclusive (reading p e) }
    ensures reading_decides { (p e : List ℕ) → AreDecided nothing_before (reading p e) }
{
    law_one_answer();
}

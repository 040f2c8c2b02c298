//! What holds of the stages of commands that ask the keeper.

ghost use Rattle.std.specs.Prelude.{ℕ, List, [], ◌∷◌};
ghost use Rattle.outcomes.specs.Lawful.{AreDecided, AreExclusive, nothing_before};
ghost use Rattle.parking.specs.Stages.{all_rows, one_row};
ghost use Rattle.parking.specs.Works.{parking_stages};

use page_check::law_one_answer;

/// The stages of these commands exclude each other's causes, and at each of them there is a cause or it is passed.
pub fn law_parking_is_lawful()
    ensures parking_excludes { (p e name : List ℕ) → AreExclusive (parking_stages p e name) }
    ensures parking_decides { (p e name : List ℕ)
        → AreDecided nothing_before (parking_stages p e name) }
    ensures one_excludes { (name : List ℕ) (version : ℕ)
        → AreExclusive (one_row name version ∷ []) }
    ensures one_decides { (name : List ℕ) (version : ℕ)
        → AreDecided nothing_before (one_row name version ∷ []) }
    ensures all_excludes { AreExclusive (all_rows ∷ []) }
    ensures all_decides { AreDecided nothing_before (all_rows ∷ []) }
{
    law_one_answer();
}

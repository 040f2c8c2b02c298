//! What holds of the stage of `stress`.

ghost use Rattle.std.specs.Prelude.{ℕ, [], ◌∷◌};
ghost use Rattle.outcomes.specs.Lawful.{AreDecided, AreExclusive, nothing_before};
ghost use Rattle.stress.specs.Stress.{IsPartCount};
ghost use Rattle.stress.specs.Works.{halfway};

use generated_pages::{law_generated_lists_are_read, law_generated_pages_are_accepted};
use page_check::law_one_answer;

/// The stage of `stress` has one cause at most, and one or it is passed for each number of parts.
pub fn law_stress_is_lawful()
    ensures excludes { (n : ℕ) → AreExclusive (halfway n ∷ []) }
    ensures decides { (n : ℕ) → IsPartCount n → AreDecided nothing_before (halfway n ∷ []) }
{
    law_one_answer();
    law_generated_pages_are_accepted();
    law_generated_lists_are_read();
}

//! What holds of pages that are moved.

ghost use Rattle.std.specs.Prelude.{ℕ, List};
ghost use Rattle.outcomes.specs.Lawful.{AreDecided, AreExclusive, nothing_before};
ghost use Rattle.migrate.specs.Moves.{AnyMovesJoin, SavedPagesFollow};
ghost use Rattle.migrate.specs.Saving.{SavedPagesMove};
ghost use Rattle.migrate.specs.Stage.{reading_to_move};

use moved_pages::{
    law_accepted_pages_are_plain, law_accepted_scripts_are_in_form, law_moved_pages_go_on,
    law_moves_join,
};
use opened_pages::{law_opened_pages_are_accepted, law_opened_pages_put_out_the_same};
use page_check::law_one_answer;
use page_meaning::law_lines_grow;

/// What is saved of an accepted page is a page to which it moves: a moved page behaves as if it had never moved.
pub fn law_saved_pages_move()
    ensures { SavedPagesMove }
{
    law_one_answer();
    law_accepted_pages_are_plain();
    law_accepted_scripts_are_in_form();
    law_moved_pages_go_on();
    law_opened_pages_are_accepted();
    law_opened_pages_put_out_the_same();
}

/// A saved page follows from the page, without a line of its own before.
pub fn law_saved_pages_follow()
    ensures { SavedPagesFollow }
{}

/// Any number of moves gives the lines of none: the last page goes on as the first one after all events, and what was put out
/// between the moves is what the first one puts out for all events.
pub fn law_any_moves_join()
    ensures { AnyMovesJoin }
{
    law_moves_join();
    law_lines_grow();
}

/// The stages of a page that is read and moved exclude each other's causes, and at each of them there is a cause or it is passed.
pub fn law_moving_is_lawful()
    ensures excludes { (p e : List ℕ) → AreExclusive (reading_to_move p e) }
    ensures decides { (p e : List ℕ) → AreDecided nothing_before (reading_to_move p e) }
{
    law_one_answer();
}

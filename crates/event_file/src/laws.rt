//! What an event file is read as, in the words of the table of items.

ghost use Rattle.std.specs.Prelude.{ℕ, List};
ghost use Rattle.event_file.specs.Laws.{NumbersItems};

/// Which number is answered.
pub fn law_numbers_items()
    ensures { (bytes : List ℕ) → NumbersItems bytes }
{}

//! What holds of walks.

ghost use Rattle.heap_walker.specs.Laws.{WalksAreSame};

/// There is one walk of a page: what can be reached, by age.
pub fn law_walks_are_same()
    ensures { WalksAreSame }
{}

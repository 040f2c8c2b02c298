//! What holds of the paths.

ghost use Rattle.std.specs.Prelude.{◌≡◌, length};
ghost use Rattle.page_meaning.specs.Pristine.{built_ins};
ghost use Rattle.built_in_paths.specs.Laws.{EachHasPath, PathsAreShort, PathsLead};
ghost use Rattle.built_in_paths.specs.Paths.{paths};

/// In a page before its scripts each path leads to the built-in object whose it is, so that no two have the same, and exactly the
/// built-in objects have one.
#[tactic(auto, using(crate::proofs::Leading::paths_lead, crate::proofs::Leading::each_has_path))]
pub fn law_paths_lead()
    ensures lead { PathsLead }
    ensures each { EachHasPath }
{}

/// No path is longer than 37 units.
#[tactic(auto, using(crate::proofs::Leading::paths_are_short))]
pub fn law_paths_are_short()
    ensures { PathsAreShort }
{}

/// There are 122 paths and 122 built-in objects.
#[tactic(auto, using(crate::proofs::Leading::path_count, crate::proofs::Leading::object_count))]
pub fn law_paths_are_counted()
    ensures paths { length paths ≡ 122 }
    ensures objects { length built_ins ≡ 122 }
{}

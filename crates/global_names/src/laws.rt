//! What holds of the definitions.

ghost use Rattle.std.specs.Prelude.{◌≡◌, true, false, length};
ghost use Rattle.std.specs.List.{list_all, list_any};
ghost use Rattle.global_names.specs.Names.{global_names, names_global};
ghost use Rattle.global_names.specs.Worked.{names, other_names};

/// There are 27 global names, and none of those that are nearly one.
#[tactic(auto, using(crate::proofs::Worked::names_are_global))]
pub fn law_worked_names()
    ensures { (length global_names ≡ 27) × (list_all names_global names ≡ true)
        × (list_any names_global other_names ≡ false) }
{}

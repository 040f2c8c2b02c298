//! What scope analysis says of names, and where a running page finds them.

ghost use Rattle.scope_chains.specs.Laws.{
  ClausesAreLevels,
  FunctionsAreLevels,
  LevelsStay,
  NamesAreFound,
  OwnNamesAreBound,
};

/// The environment in which a name is found is that of the innermost scope that declares it (section 10.2.2.1).
pub fn law_names_are_found()
    ensures { NamesAreFound }
{}

/// A function that is entered has the environment of its scope (section 10.4.3).
pub fn law_functions_are_levels()
    ensures { FunctionsAreLevels }
{}

/// The name of a function expression is bound in an environment round it (section 13).
pub fn law_own_names_are_bound()
    ensures { OwnNamesAreBound }
{}

/// A catch clause that is entered has the environment of its scope (section 12.14).
pub fn law_clauses_are_levels()
    ensures { ClausesAreLevels }
{}

/// Whatever a page does, environments stay those of their scopes.
pub fn law_scopes_stay()
    ensures { LevelsStay }
{}

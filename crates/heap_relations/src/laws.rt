//! Two heaps that agree still agree after what scripts do to them.

ghost use Rattle.heap_relations.specs.Laws.{
  EntriesAgree,
  EnvironmentsAgree,
  FunctionsAgree,
  JoinsAgree,
  MadeAgree,
  NewObjectsAgree,
  ObjectsAgree,
  OpenedAgree,
  OthersDoNotCount,
  RelatedStay,
  SameAgree,
};
ghost use Rattle.heap_relations.specs.Scope.{OwnFunctionsAgree, ScopesAgree};

/// The laws of objects.
pub fn law_objects_agree()
    // What is read of objects that are named is related, and what is tried on them throws the same
    // and leaves heaps that agree.
    ensures objects { ObjectsAgree }
    // Values are the same where their counterparts are.
    ensures same { SameAgree }
    // New objects join the naming.
    ensures new_objects { NewObjectsAgree }
    // So do objects with properties that name them,
    ensures made { MadeAgree }
    // and functions with their prototypes.
    ensures functions { FunctionsAgree }
    // A larger naming relates what was related.
    ensures stay { RelatedStay }
    // Objects that are related by way of a third heap are related.
    ensures joins { JoinsAgree }
    // What one heap makes alone does not count.
    ensures others { OthersDoNotCount }
{}

/// The laws of environments, where the second heap may hold some variables in scope objects.
pub fn law_environments_agree()
    // A name is found in environments that are linked, and is read and assigned there.
    ensures names { EnvironmentsAgree }
    // New environments join the naming,
    ensures entries { EntriesAgree }
    // also where both are only opened.
    ensures new_environments { OpenedAgree }
    // So does one whose captured variables the second heap puts into an object literal.
    ensures scopes { ScopesAgree }
    // Functions with an own name join the naming with the environments that bind it.
    ensures own_functions { OwnFunctionsAgree }
{}

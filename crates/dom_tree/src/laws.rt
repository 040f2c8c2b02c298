//! What calls on nodes keep. A law is a function that says it and does nothing.

ghost use Rattle.dom_tree.specs.Laws.{
  AllStandAlone,
  GenerationsAreEnough,
  NewNodesStaySound,
  NoOwnAncestor,
  OthersStay,
  StandsBefore,
  StandsInPlace,
  StepsStaySound,
  TextIsEscaped,
  TextsOfChildren,
};

/// The laws of insertion.
pub fn law_insertion()
    // The child stands directly before the reference, or as the last one, and in no other place.
    ensures stands_before { StandsBefore }
    // Nothing else moves.
    ensures others_stay { OthersStay }
{}

/// The laws of replacement and of what has no child any more.
pub fn law_replacement()
    // The child stands where the old one stood, and the old one stands nowhere.
    ensures stands_in_place { StandsInPlace }
    // The children that a node had stand nowhere, and nothing else moves.
    ensures all_stand_alone { AllStandAlone }
{}

/// The laws of trees.
pub fn law_trees()
    // A node is never its own ancestor.
    ensures no_own_ancestor { NoOwnAncestor }
    // Whatever is done to nodes, they stay trees, and sound.
    ensures steps_stay_sound { StepsStaySound }
    // So they do where a node is made.
    ensures new_nodes_stay_sound { NewNodesStaySound }
    // As many generations as nodes are enough.
    ensures generations_are_enough { GenerationsAreEnough }
{}

/// The laws of texts.
pub fn law_texts()
    // The text of a node stands round those of its children.
    ensures texts_of_children { TextsOfChildren }
    // Exactly three characters of a text are escaped.
    ensures text_is_escaped { TextIsEscaped }
{}

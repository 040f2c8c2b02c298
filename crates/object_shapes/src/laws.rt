//! What holds of shapes.

ghost use Rattle.object_shapes.specs.Laws.{
  BuiltInsAreCounted,
  FunctionsStay,
  PagesBeginShaped,
  PlainStays,
  ShapesStay,
};

/// Objects keep their shapes, whatever scripts do (ECMA-262 5.1 sections 8.6, 13.2, 15.3.4.5, 15.4 and 15.11).
pub fn law_shapes_stay()
    ensures begin { PagesBeginShaped }
    ensures steps { ShapesStay }
    ensures functions { FunctionsStay }
    ensures plain { PlainStays }
{}

/// How many objects are built in, and with how many properties the global object begins.
pub fn law_built_ins_are_counted()
    ensures { BuiltInsAreCounted }
{}

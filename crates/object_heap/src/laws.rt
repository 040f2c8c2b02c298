//! What the calls on the heap keep, in the language's own words.

ghost use Rattle.object_heap.specs.Counted.{ShrinksAsCounted};
ghost use Rattle.object_heap.specs.Laws.{
  FoundOn,
  FrozenStays,
  IndicesAreDecimal,
  KeepsKinds,
  LengthIsAbove,
  LooksOn,
  NeverFewer,
  OnlyThere,
  OthersStay,
  PutThenGet,
  StaysSound,
};

/// The laws of properties.
pub fn law_properties_are_kept()
    // What was put is got.
    ensures put_then_get { PutThenGet }
    // A property stays where another one that is no array's length is put, defined or deleted.
    ensures others_stay { OthersStay }
    // An object that is frozen never changes, whatever a script does.
    ensures frozen_stays { FrozenStays }
{}

/// The law of the walk up the prototypes, for whatever is looked for: properties, or names of the host.
pub fn law_prototypes_are_walked<A>()
    // What is seen up from an object is seen in it, or else up from its prototype.
    ensures { FoundOn A }
{}

/// The laws of chains of prototypes and environments.
pub fn law_chains_are_walked()
    // What an object does not have itself is its prototype's, and a name that an environment does not bind is bound outwards.
    ensures { LooksOn }
{}

/// The laws of arrays.
pub fn law_arrays_are_kept()
    // An array index is what a number below 2^32 - 1 is written as.
    ensures indices_are_decimal { IndicesAreDecimal }
    // A shrink leaves what deleting element by element from the top leaves.
    ensures shrinks_as_counted { ShrinksAsCounted }
    // Whatever is done, the length of an array is above the index of each element.
    ensures length_is_above { LengthIsAbove }
{}

/// The laws of the whole heap.
pub fn law_heaps_are_kept()
    // Prototypes, targets and outer environments stay older, arrays arrays, and names distinct.
    ensures stays_sound { StaysSound }
    // An old object keeps its prototype and its class, but for an event's parts.
    ensures keeps_kinds { KeepsKinds }
    // Nothing is ever lost.
    ensures never_fewer { NeverFewer }
    // Only the object or environment of a call changes.
    ensures only_there { OnlyThere }
{}

//! Elements that are copied, moved and deleted one after another.

ghost use Rattle.page_meaning.specs.ListRows as spec;
ghost use Rattle.page_state.specs.Does.{Gives, no_value};
ghost use Rattle.page_state.specs.Turns.{Ends};

use js_values::{ObjId, Value};
use page_state::{Fault, Halt, State, further, take_turn};

// An element becomes one of a new array; a hole becomes none.
fn copy(state: &mut State, from: ObjId, index: u64, made: ObjId, place: u64) -> Result<(), Fault>
    ensures { Gives no_value (λ _. spec.copy from index made place) state.old state.new result }
{
    match state.element(from, index)? {
        Some(value) => state.define_element(made, place, value),
        None => Ok(()),
    }
}

/// So many elements from an index on become those of a new array from a place on.
pub fn copy_all(
    state: &mut State,
    steps: &mut u64,
    from: ObjId,
    index: u64,
    made: ObjId,
    place: u64,
    count: u64,
) -> Result<(), Halt>
    ensures { Ends no_value (λ _. spec.copy_all from index made place count) state.old steps.old
        state.new steps.new result }
{
    for turn in 0..count {
        take_turn(steps)?;
        copy(
            state,
            from,
            further(index, turn)?,
            made,
            further(place, turn)?,
        )?;
    }
    Ok(())
}

/// The element is put, or what stands there is deleted where there is none.
pub fn put_or_delete(
    state: &mut State,
    list: ObjId,
    index: u64,
    element: Option<Value>,
) -> Result<(), Fault>
    ensures { Gives no_value (λ _. spec.put_or_delete list index element) state.old state.new
        result }
{
    match element {
        Some(value) => state.put_element(list, index, value),
        None => state.delete_element(list, index),
    }
}

// An element moves to another index, or leaves a hole there.
fn move_one(state: &mut State, list: ObjId, from: u64, to: u64) -> Result<(), Fault>
    ensures { Gives no_value (λ _. spec.move list from to) state.old state.new result }
{
    let element = state.element(list, from)?;
    put_or_delete(state, list, to, element)
}

/// So many elements move, from the first on.
pub fn move_down(
    state: &mut State,
    steps: &mut u64,
    list: ObjId,
    from: u64,
    to: u64,
    count: u64,
) -> Result<(), Halt>
    ensures { Ends no_value (λ _. spec.move_down list from to count) state.old steps.old state.new
        steps.new result }
{
    for turn in 0..count {
        take_turn(steps)?;
        move_one(state, list, further(from, turn)?, further(to, turn)?)?;
    }
    Ok(())
}

/// So many elements move, from the last on.
pub fn move_up(
    state: &mut State,
    steps: &mut u64,
    list: ObjId,
    from: u64,
    to: u64,
    count: u64,
) -> Result<(), Halt>
    ensures { Ends no_value (λ _. spec.move_up list from to count) state.old steps.old state.new
        steps.new result }
{
    let mut left = count;
    while left > 0 {
        take_turn(steps)?;
        left -= 1;
        move_one(state, list, further(from, left)?, further(to, left)?)?;
    }
    Ok(())
}

/// So many elements from an index on are deleted, the last one first.
pub fn delete_last(
    state: &mut State,
    steps: &mut u64,
    list: ObjId,
    index: u64,
    count: u64,
) -> Result<(), Halt>
    ensures { Ends no_value (λ _. spec.delete_last list index count) state.old steps.old state.new
        steps.new result }
{
    let mut left = count;
    while left > 0 {
        take_turn(steps)?;
        left -= 1;
        state.delete_element(list, further(index, left)?)?;
    }
    Ok(())
}

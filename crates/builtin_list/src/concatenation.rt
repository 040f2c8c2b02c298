//! Arrays and values that become one array (ECMA-262 5.1 section 15.4.4.4).

ghost use Rattle.std.specs.Prelude.{◌≡◌, ◌∷◌, IfOk};
ghost use Rattle.js_values.specs.declared.value.Value.TheVariants.{Object};
ghost use Rattle.page_meaning.specs.ListRows as spec;
ghost use Rattle.page_state.specs.Does.{itself, no_value};
ghost use Rattle.page_state.specs.Turns.{Ends};
ghost use Rattle.builtin_list.specs.Lists.{for_object};

use crate::copying::copy_all;
use js_core::OutOfMemory;
use js_values::{ObjId, Value};
use page_state::{Halt, State, further};

// The elements of an array, or the value itself, from a place on.
fn add_item(
    state: &mut State,
    steps: &mut u64,
    made: ObjId,
    place: u64,
    item: &Value,
    spread: Option<(ObjId, u64)>,
) -> Result<(), Halt>
    ensures { Ends no_value (λ _. spec.add_item made place item.now spread) state.old steps.old
        state.new steps.new result }
{
    match spread {
        Some((from, count)) => copy_all(state, steps, from, 0, made, place, count),
        None => Ok(state.define_element(made, place, item.clone()?)?),
    }
}

// The array that a value is, with its length.
fn spread_of(state: &State, item: &Value) -> Result<Option<(ObjId, u64)>, OutOfMemory>
    ensures { IfOk result (λ p. p ≡ spec.spread_of item.now state.now) }
{
    match state.as_list(item) {
        Some(from) => Ok(Some((from, state.length_of(from)?))),
        None => Ok(None),
    }
}

// The place behind a value, or behind the elements of an array.
fn past_item(place: u64, spread: Option<(ObjId, u64)>) -> Result<u64, OutOfMemory>
    ensures { IfOk result (λ k. k ≡ spec.past_item place spread) }
{
    match spread {
        Some((_, count)) => further(place, count),
        None => further(place, 1),
    }
}

// All of them, from a place on.
fn add_all(
    state: &mut State,
    steps: &mut u64,
    made: ObjId,
    start: u64,
    items: &[Value],
) -> Result<(), Halt>
    ensures { Ends (for_object made) (λ _. spec.concat_from made start items.now) state.old
        steps.old state.new steps.new result }
{
    let mut place = start;
    for index in 0..items.len() {
        let item = &items[index];
        let spread = spread_of(state, item)?;
        add_item(state, steps, made, place, item, spread)?;
        place = past_item(place, spread)?;
    }
    Ok(())
}

// The array itself is the first of them.
fn add_to(
    state: &mut State,
    steps: &mut u64,
    made: ObjId,
    list: ObjId,
    args: &[Value],
) -> Result<(), Halt>
    ensures { Ends (for_object made) (λ _. spec.concat_from made 0 (Object list ∷ args.now))
        state.old steps.old state.new steps.new result }
{
    let item = Value::Object(list);
    let spread = spread_of(state, &item)?;
    add_item(state, steps, made, 0, &item, spread)?;
    add_all(state, steps, made, past_item(0, spread)?, args)
}

/// `concat` (section 15.4.4.4).
pub fn concat(
    state: &mut State,
    steps: &mut u64,
    list: ObjId,
    args: &[Value],
) -> Result<Value, Halt>
    ensures { Ends itself (λ _. spec.concat list args.now) state.old steps.old state.new steps.new
        result }
{
    let made = state.new_list()?;
    add_to(state, steps, made, list, args)?;
    Ok(Value::Object(made))
}

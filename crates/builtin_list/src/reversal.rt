//! An array that is turned over in its place (ECMA-262 5.1 section 15.4.4.8).

ghost use Rattle.std.specs.Prelude.{◌≡◌, ◌&&◌, is_none};
ghost use Rattle.js_values.specs.declared.value.Value.TheVariants.{Object};
ghost use Rattle.page_meaning.specs.Elements.{turns_up};
ghost use Rattle.page_meaning.specs.ListRows as spec;
ghost use Rattle.page_state.specs.Does.{Gives, itself, no_value};
ghost use Rattle.page_state.specs.Turns.{Ends};

use crate::copying::put_or_delete;
use js_values::{ObjId, Value};
use page_state::{Fault, Halt, State, take_turn};

// Each of two elements is put where the other was.
fn put_both(
    state: &mut State,
    list: ObjId,
    low: u64,
    high: u64,
    first: Option<Value>,
    second: Option<Value>,
) -> Result<(), Fault>
    ensures { Gives no_value (λ _. spec.put_both list low high first second) state.old state.new
        result }
{
    put_or_delete(state, list, low, second)?;
    put_or_delete(state, list, high, first)
}

// Whether neither of the two is an element.
fn are_holes(first: &Option<Value>, second: &Option<Value>) -> bool
    ensures { result ≡ (is_none first.now && is_none second.now) }
{
    first.is_none() && second.is_none()
}

// Two elements change places; two holes stay.
fn exchange(
    state: &mut State,
    list: ObjId,
    low: u64,
    high: u64,
    first: Option<Value>,
    second: Option<Value>,
) -> Result<(), Fault>
    ensures { Gives no_value (λ _. spec.exchange list low high first second) state.old state.new
        result }
{
    if are_holes(&first, &second) {
        return Ok(());
    }
    put_both(state, list, low, high, first, second)
}

// What two indices have, their elements or holes, changes places.
fn turn_at(state: &mut State, list: ObjId, low: u64, high: u64) -> Result<(), Fault>
    ensures { Gives no_value (λ _. spec.turn_at list low high) state.old state.new result }
{
    let first = state.element(list, low)?;
    let second = state.element(list, high)?;
    exchange(state, list, low, high, first, second)
}

// The first half changes places with the second, from both ends.
fn turn_over(state: &mut State, steps: &mut u64, list: ObjId, length: u64) -> Result<(), Halt>
    ensures { Ends no_value (λ _. turns_up (spec.turn_over list length) 0 (spec.half length))
        state.old steps.old state.new steps.new result }
{
    for low in 0..length / 2 {
        take_turn(steps)?;
        turn_at(state, list, low, length - 1 - low)?;
    }
    Ok(())
}

/// `reverse` (section 15.4.4.8).
pub fn reverse(state: &mut State, steps: &mut u64, list: ObjId, length: u64) -> Result<Value, Halt>
    ensures { Ends itself (λ _. spec.reverse list length) state.old steps.old state.new steps.new
        result }
{
    turn_over(state, steps, list, length)?;
    Ok(Value::Object(list))
}

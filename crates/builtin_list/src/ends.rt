//! What is added and taken at the ends of an array (ECMA-262 5.1 sections 15.4.4.6, 15.4.4.7, 15.4.4.9 and 15.4.4.13).

ghost use Rattle.page_meaning.specs.ListRows as spec;
ghost use Rattle.page_state.specs.Does.{Gives, itself};
ghost use Rattle.page_state.specs.Turns.{Ends};

use crate::copying::{move_down, move_up};
use js_values::{ObjId, Value};
use page_state::{Fault, Halt, State, further};

// The last element goes, and the value is given.
fn drop_last(state: &mut State, list: ObjId, last: u64, value: Value) -> Result<Value, Fault>
    ensures { Gives itself (λ _. spec.drop_last list last value) state.old state.new result }
{
    state.delete_element(list, last)?;
    state.set_length(list, last)?;
    Ok(value)
}

// There is no element that could be taken.
fn no_elements(state: &mut State, list: ObjId) -> Result<Value, Fault>
    ensures { Gives itself (λ _. spec.no_elements list) state.old state.new result }
{
    state.set_length(list, 0)?;
    Ok(Value::Undefined)
}

/// `pop` (section 15.4.4.6).
pub fn pop(state: &mut State, list: ObjId, length: u64) -> Result<Value, Fault>
    ensures { Gives itself (λ _. spec.pop list length) state.old state.new result }
{
    if length == 0 {
        return no_elements(state, list);
    }
    let value = state.element_or_undefined(list, length - 1)?;
    drop_last(state, list, length - 1, value)
}

/// The values are put from an index on, and the array has this length then, which is given.
pub fn put_all(
    state: &mut State,
    list: ObjId,
    start: u64,
    values: &[Value],
    length: u64,
) -> Result<Value, Fault>
    ensures { Gives itself (λ _. spec.put_all list start values.now length) state.old state.new
        result }
{
    state.put_each(list, start, values)?;
    state.set_length(list, length)
}

/// `push` (section 15.4.4.7).
pub fn push(state: &mut State, list: ObjId, length: u64, values: &[Value]) -> Result<Value, Fault>
    ensures { Gives itself (λ _. spec.push list length values.now) state.old state.new result }
{
    let longer = further(length, values.len() as u64)?;
    put_all(state, list, length, values, longer)
}

// The first element goes, and all others move.
fn shift_all(
    state: &mut State,
    steps: &mut u64,
    list: ObjId,
    last: u64,
    value: Value,
) -> Result<Value, Halt>
    ensures { Ends itself (λ _. spec.shift_all list last value) state.old steps.old state.new
        steps.new result }
{
    move_down(state, steps, list, 1, 0, last)?;
    Ok(drop_last(state, list, last, value)?)
}

/// `shift` (section 15.4.4.9).
pub fn shift(state: &mut State, steps: &mut u64, list: ObjId, length: u64) -> Result<Value, Halt>
    ensures { Ends itself (λ _. spec.shift list length) state.old steps.old state.new steps.new
        result }
{
    if length == 0 {
        return Ok(no_elements(state, list)?);
    }
    let value = state.element_or_undefined(list, 0)?;
    shift_all(state, steps, list, length - 1, value)
}

/// `unshift` (section 15.4.4.13).
pub fn unshift(
    state: &mut State,
    steps: &mut u64,
    list: ObjId,
    length: u64,
    values: &[Value],
) -> Result<Value, Halt>
    ensures { Ends itself (λ _. spec.unshift list length values.now) state.old steps.old state.new
        steps.new result }
{
    let longer = further(length, values.len() as u64)?;
    move_up(state, steps, list, 0, values.len() as u64, length)?;
    Ok(put_all(state, list, 0, values, longer)?)
}

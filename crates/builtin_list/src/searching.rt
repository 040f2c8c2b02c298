//! The index at which an array has a value (ECMA-262 5.1 sections 15.4.4.14 and 15.4.4.15).

ghost use Rattle.std.specs.Prelude.{◌≡◌, IfOk, Some, negsuc};
ghost use Rattle.js_values.specs.declared.value.Value.TheVariants.{Num};
ghost use Rattle.page_meaning.specs.Elements.{element};
ghost use Rattle.page_meaning.specs.ListRows as spec;
ghost use Rattle.page_state.specs.Does.{itself};
ghost use Rattle.page_state.specs.Turns.{Ends};

use crate::places::{count_to, place_in};
use js_core::{OutOfMemory, Whole};
use js_values::{ObjId, Value};
use page_state::{Halt, State, argument, further, index_value, take_turn};
use whole_ops::same;

// Whether an array has the value at an index.
fn is_there(state: &State, list: ObjId, index: u64, value: &Value) -> Result<bool, OutOfMemory>
    ensures { IfOk result (λ b. b ≡ spec.is_there value.now (element list index state.now)) }
{
    match state.element(list, index)? {
        Some(found) => Ok(same(value, &found)),
        None => Ok(false),
    }
}

// No index.
fn not_found() -> Result<Value, OutOfMemory>
    ensures { IfOk result (λ v. v ≡ Num (Some (negsuc 0))) }
{
    match Whole::new(-1) {
        Some(number) => Ok(Value::Num(number)),
        None => Err(OutOfMemory),
    }
}

// The value among so many elements from an index on.
fn find_up(
    state: &State,
    steps: &mut u64,
    list: ObjId,
    value: &Value,
    start: u64,
    count: u64,
) -> Result<Value, Halt>
    ensures { Ends itself (λ _. spec.find_up list value.now start count) state.now steps.old
        state.now steps.new result }
{
    for turn in 0..count {
        take_turn(steps)?;
        let index = further(start, turn)?;
        if is_there(state, list, index, value)? {
            return Ok(index_value(index)?);
        }
    }
    Ok(not_found()?)
}

// The value among the first so many elements, from the last on.
fn find_down(
    state: &State,
    steps: &mut u64,
    list: ObjId,
    value: &Value,
    count: u64,
) -> Result<Value, Halt>
    ensures { Ends itself (λ _. spec.find_down list value.now count) state.now steps.old state.now
        steps.new result }
{
    let mut left = count;
    while left > 0 {
        take_turn(steps)?;
        left -= 1;
        if is_there(state, list, left, value)? {
            return Ok(index_value(left)?);
        }
    }
    Ok(not_found()?)
}

// From the index that an argument gives.
fn find_from(
    state: &mut State,
    steps: &mut u64,
    list: ObjId,
    length: u64,
    value: &Value,
    from: &Value,
) -> Result<Value, Halt>
    ensures { Ends itself (λ calls. spec.find_from calls list length value.now from.now) state.old
        steps.old state.new steps.new result }
{
    let number = state.to_number(from)?;
    let start = place_in(length, number);
    find_up(state, steps, list, value, start, length - start)
}

/// `indexOf` (section 15.4.4.14).
pub fn index_of(
    state: &mut State,
    steps: &mut u64,
    list: ObjId,
    length: u64,
    args: &[Value],
) -> Result<Value, Halt>
    ensures { Ends itself (λ calls. spec.index_of calls list length args.now) state.old steps.old
        state.new steps.new result }
{
    if length == 0 {
        return Ok(not_found()?);
    }
    let value = argument(args, 0)?;
    let from = argument(args, 1)?;
    find_from(state, steps, list, length, &value, &from)
}

// Up to the index that an argument gives.
fn find_to(
    state: &mut State,
    steps: &mut u64,
    list: ObjId,
    length: u64,
    value: &Value,
    to: &Value,
) -> Result<Value, Halt>
    ensures { Ends itself (λ calls. spec.find_to calls list length value.now to.now) state.old
        steps.old state.new steps.new result }
{
    let number = state.to_number(to)?;
    find_down(state, steps, list, value, count_to(length, number))
}

/// `lastIndexOf`: an index that is passed counts, also where it is undefined (section 15.4.4.15).
pub fn last_index_of(
    state: &mut State,
    steps: &mut u64,
    list: ObjId,
    length: u64,
    args: &[Value],
) -> Result<Value, Halt>
    ensures { Ends itself (λ calls. spec.last_index_of calls list length args.now) state.old
        steps.old state.new steps.new result }
{
    if length == 0 {
        return Ok(not_found()?);
    }
    let value = argument(args, 0)?;
    if args.len() < 2 {
        return find_down(state, steps, list, &value, length);
    }
    let to = argument(args, 1)?;
    find_to(state, steps, list, length, &value, &to)
}

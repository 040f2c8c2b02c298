//! A part of an array as a new one (ECMA-262 5.1 section 15.4.4.10).

ghost use Rattle.std.specs.Prelude.{◌≡◌, IfOk};
ghost use Rattle.js_values.specs.declared.value.Value.TheVariants.{Num};
ghost use Rattle.object_heap.specs.Define.{number};
ghost use Rattle.page_meaning.specs.ListRows as spec;
ghost use Rattle.page_state.specs.Does.{Gives, itself};
ghost use Rattle.page_state.specs.Turns.{Ends};

use crate::copying::copy_all;
use crate::places::place_in;
use js_core::{OutOfMemory, Whole};
use js_values::{ObjId, Value};
use page_state::{Fault, Halt, State, argument};

// The elements between two places.
fn slice_of(
    state: &mut State,
    steps: &mut u64,
    list: ObjId,
    length: u64,
    made: ObjId,
    start: Whole,
    end: Whole,
) -> Result<Value, Halt>
    ensures { Ends itself (λ _. spec.slice_of list length made (Num start) (Num end)) state.old
        steps.old state.new steps.new result }
{
    let from = place_in(length, start);
    let to = place_in(length, end);
    copy_all(state, steps, list, from, made, 0, to.saturating_sub(from))?;
    Ok(Value::Object(made))
}

// A length as a number. No memory holds so many elements that it would be none.
fn whole_length(length: u64) -> Result<Whole, OutOfMemory>
    ensures { IfOk result (λ w. Num w ≡ number length) }
{
    if length > 9_007_199_254_740_991 {
        return Err(OutOfMemory);
    }
    match Whole::new(length as i64) {
        Some(number) => Ok(number),
        None => Err(OutOfMemory),
    }
}

// The number of an end; one that is undefined is the length.
fn end_in(state: &mut State, length: u64, value: &Value) -> Result<Whole, Fault>
    ensures { Gives Num (λ calls. spec.end_in calls length value.now) state.old state.new result }
{
    match value {
        Value::Undefined => Ok(whole_length(length)?),
        _ => state.to_number(value),
    }
}

// The bounds of the part become numbers.
fn slice_between(
    state: &mut State,
    steps: &mut u64,
    list: ObjId,
    length: u64,
    made: ObjId,
    start: &Value,
    end: &Value,
) -> Result<Value, Halt>
    ensures { Ends itself (λ calls. spec.slice_between calls list length made start.now end.now)
        state.old steps.old state.new steps.new result }
{
    let from = state.to_number(start)?;
    let to = end_in(state, length, end)?;
    slice_of(state, steps, list, length, made, from, to)
}

/// `slice` (section 15.4.4.10).
pub fn slice(
    state: &mut State,
    steps: &mut u64,
    list: ObjId,
    length: u64,
    args: &[Value],
) -> Result<Value, Halt>
    ensures { Ends itself (λ calls. spec.slice calls list length args.now) state.old steps.old
        state.new steps.new result }
{
    let start = argument(args, 0)?;
    let end = argument(args, 1)?;
    let made = state.new_list()?;
    slice_between(state, steps, list, length, made, &start, &end)
}

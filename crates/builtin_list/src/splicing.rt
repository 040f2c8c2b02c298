//! Elements that are taken out of an array, and others that take their place (ECMA-262 5.1 section 15.4.4.12).

ghost use Rattle.std.specs.Prelude.{◌+◌, ◌≤◌};
ghost use Rattle.page_meaning.specs.ListRows as spec;
ghost use Rattle.page_state.specs.Does.{itself, no_value};
ghost use Rattle.page_state.specs.Turns.{Ends};

use crate::copying::{copy_all, delete_last, move_down, move_up};
use crate::ends::put_all;
use crate::places::{count_in, place_in};
use js_core::Whole;
use js_values::{ObjId, Value};
use page_state::{Halt, State, argument, arguments_from, further};

// What stands behind the elements that go moves down, and what is left at the end goes.
fn close_up(
    state: &mut State,
    steps: &mut u64,
    list: ObjId,
    length: u64,
    place: u64,
    less: u64,
    more: u64,
) -> Result<(), Halt>
    requires more { more ≤ less }
    requires inside { place + less ≤ length }
    ensures { Ends no_value (λ _. spec.close_up list length place less more) state.old steps.old
        state.new steps.new result }
{
    let moved = length - less - place;
    move_down(state, steps, list, place + less, place + more, moved)?;
    delete_last(state, steps, list, length - less + more, less - more)
}

// What stands behind so many elements moves behind so many others.
fn make_room(
    state: &mut State,
    steps: &mut u64,
    list: ObjId,
    length: u64,
    place: u64,
    less: u64,
    more: u64,
) -> Result<(), Halt>
    requires { place + less ≤ length }
    ensures { Ends no_value (λ _. spec.make_room list length place less more) state.old steps.old
        state.new steps.new result }
{
    if more < less {
        return close_up(state, steps, list, length, place, less, more);
    }
    if less < more {
        let to = further(place, more)?;
        return move_up(state, steps, list, place + less, to, length - less - place);
    }
    Ok(())
}

// So many elements from a place on go, and the values take their place.
fn splice_at(
    state: &mut State,
    steps: &mut u64,
    list: ObjId,
    length: u64,
    made: ObjId,
    place: u64,
    less: u64,
    values: &[Value],
) -> Result<Value, Halt>
    requires { place + less ≤ length }
    ensures { Ends itself (λ _. spec.splice_at list length made place less values.now) state.old
        steps.old state.new steps.new result }
{
    let more = values.len() as u64;
    let longer = further(length - less, more)?;
    copy_all(state, steps, list, place, made, 0, less)?;
    make_room(state, steps, list, length, place, less, more)?;
    put_all(state, list, place, values, longer)?;
    Ok(Value::Object(made))
}

// The place and the number of elements are numbers, behind which the values are arguments.
fn splice_from(
    state: &mut State,
    steps: &mut u64,
    list: ObjId,
    length: u64,
    made: ObjId,
    args: &[Value],
    start: Whole,
    count: Whole,
) -> Result<Value, Halt>
    ensures { Ends itself (λ _.
        spec.splice_from list length made args.now (spec.place_in length start) count) state.old
        steps.old state.new steps.new result }
{
    let place = place_in(length, start);
    let less = count_in(length - place, count);
    let values = arguments_from(args, 2);
    splice_at(state, steps, list, length, made, place, less, values)
}

// The place and the number of elements become numbers.
fn splice_with(
    state: &mut State,
    steps: &mut u64,
    list: ObjId,
    length: u64,
    made: ObjId,
    args: &[Value],
) -> Result<Value, Halt>
    ensures { Ends itself (λ calls. spec.splice_with calls list length made args.now) state.old
        steps.old state.new steps.new result }
{
    let first = argument(args, 0)?;
    let second = argument(args, 1)?;
    let start = state.to_number(&first)?;
    let count = state.to_number(&second)?;
    splice_from(state, steps, list, length, made, args, start, count)
}

/// `splice`; without a number of elements none is taken out (section 15.4.4.12).
pub fn splice(
    state: &mut State,
    steps: &mut u64,
    list: ObjId,
    length: u64,
    args: &[Value],
) -> Result<Value, Halt>
    ensures { Ends itself (λ calls. spec.splice calls list length args.now) state.old steps.old
        state.new steps.new result }
{
    let made = state.new_list()?;
    splice_with(state, steps, list, length, made, args)
}

//! The text of all elements of an array (ECMA-262 5.1 section 15.4.4.5).

ghost use Rattle.std.specs.Prelude.{◌≡◌, ◌-◌, ◌++◌, IfOk};
ghost use Rattle.js_values.specs.declared.value.Value.TheVariants.{Text};
ghost use Rattle.page_meaning.specs.Act.{asking};
ghost use Rattle.page_meaning.specs.Elements.{element_or};
ghost use Rattle.page_meaning.specs.ListRows as spec;
ghost use Rattle.page_state.specs.Does.{Gives, itself};
ghost use Rattle.page_state.specs.Turns.{Ends};
ghost use Rattle.builtin_list.specs.Lists.{for_text};

use js_core::{OutOfMemory, Units, ascii_text};
use js_values::{ObjId, Throw, Value};
use page_state::{Fault, Halt, State, are_short, argument, take_turn};
use std::alloc::Global;

// More units behind others.
fn add_units(units: &mut Vec<u16>, more: &[u16]) -> Result<(), OutOfMemory>
    ensures { IfOk result (λ _. units.new.items ≡ units.old.items ++ more.now) }
{
    units.extend_from_slice(more)?;
    Ok(())
}

// A text behind what is joined, which may be too long then.
fn append(state: &mut State, joined: &mut Vec<u16>, text: &[u16]) -> Result<(), Fault>
    ensures { Gives (for_text joined.new.items) (λ _.
        spec.join_text (Text joined.old.items) (Text text.now)) state.old state.new result }
{
    if !are_short(joined.as_slice(), text) {
        return Err(state.raise(Throw::TextTooLong));
    }
    Ok(add_units(joined, text)?)
}

// The text of an element, which is empty for undefined and null.
fn element_text(state: &mut State, value: &Value) -> Result<Units, Fault>
    ensures { Gives Text (λ calls. spec.element_text calls value.now) state.old state.new result }
{
    match value {
        Value::Undefined | Value::Null => Ok(Units::of(state.alloc(), &[])?),
        _ => state.to_text(value),
    }
}

fn text_at(state: &mut State, list: ObjId, index: u64) -> Result<Units, Fault>
    ensures { Gives Text (λ calls. asking (element_or list index) (spec.element_text calls))
        state.old state.new result }
{
    let value = state.element_or_undefined(list, index)?;
    element_text(state, &value)
}

// The separator and an element behind what is joined.
fn append_one(
    state: &mut State,
    list: ObjId,
    separator: &Units,
    joined: &mut Vec<u16>,
    index: u64,
) -> Result<(), Fault>
    ensures { Gives (for_text joined.new.items) (λ calls.
        spec.join_one calls list (Text separator.now) (Text joined.old.items) index) state.old
        state.new result }
{
    append(state, joined, separator.as_slice())?;
    let text = text_at(state, list, index)?;
    append(state, joined, text.as_slice())
}

// Turn by turn, the elements from the second on.
fn join_rest(
    state: &mut State,
    steps: &mut u64,
    list: ObjId,
    separator: &Units,
    joined: &mut Vec<u16>,
    length: u64,
) -> Result<(), Halt>
    ensures { Ends (for_text joined.new.items) (λ calls. spec.join_from calls list
        (Text separator.now) (Text joined.old.items) 1 (length - 1)) state.old steps.old state.new
        steps.new result }
{
    for index in 1..length {
        take_turn(steps)?;
        append_one(state, list, separator, joined, index)?;
    }
    Ok(())
}

// The same units as a list that may grow.
fn units_from(alloc: Global, units: &[u16]) -> Result<Vec<u16>, OutOfMemory>
    ensures { IfOk result (λ copied. copied.items ≡ units.now) }
{
    let mut copied = Vec::new(alloc);
    add_units(&mut copied, units)?;
    Ok(copied)
}

// The text of the first element, and all others behind it.
fn join_on(
    state: &mut State,
    steps: &mut u64,
    list: ObjId,
    length: u64,
    separator: &Units,
    first: &Units,
) -> Result<Value, Halt>
    ensures { Ends itself (λ calls. spec.join_from calls list (Text separator.now)
        (Text first.now) 1 (length - 1)) state.old steps.old state.new steps.new result }
{
    let mut joined = units_from(state.alloc(), first.as_slice())?;
    join_rest(state, steps, list, separator, &mut joined, length)?;
    Ok(Value::Text(Units::of(state.alloc(), joined.as_slice())?))
}

// The texts of all elements.
fn join_all(
    state: &mut State,
    steps: &mut u64,
    list: ObjId,
    length: u64,
    separator: &Units,
) -> Result<Value, Halt>
    ensures { Ends itself (λ calls. spec.join_all calls list length (Text separator.now)) state.old
        steps.old state.new steps.new result }
{
    if length == 0 {
        return Ok(Value::Text(Units::of(state.alloc(), &[])?));
    }
    let first = text_at(state, list, 0)?;
    join_on(state, steps, list, length, separator, &first)
}

// What stands between two elements: a comma where nothing else is asked for.
fn separator(state: &mut State, value: &Value) -> Result<Units, Fault>
    ensures { Gives Text (λ calls. spec.separator calls value.now) state.old state.new result }
{
    match value {
        Value::Undefined => Ok(ascii_text(state.alloc(), b",")?),
        _ => state.to_text(value),
    }
}

/// `join` (section 15.4.4.5).
pub fn join(
    state: &mut State,
    steps: &mut u64,
    list: ObjId,
    length: u64,
    args: &[Value],
) -> Result<Value, Halt>
    ensures { Ends itself (λ calls. spec.join calls list length args.now) state.old steps.old
        state.new steps.new result }
{
    let first = argument(args, 0)?;
    let separator = separator(state, &first)?;
    join_all(state, steps, list, length, &separator)
}

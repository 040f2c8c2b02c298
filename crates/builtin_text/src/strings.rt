//! Texts that are made of values (ECMA-262 5.1 sections 15.5.1.1, 15.5.3.2 and 15.5.4.6).

ghost use Rattle.std.specs.Prelude.{◌≡◌, ◌++◌, ◌∷◌, [], IfOk, OnOk, false, nat_le, length};
ghost use Rattle.page_meaning.specs.Convert.{to_text};
ghost use Rattle.page_host.specs.HostNames.{text_limit};
ghost use Rattle.page_meaning.specs.StringRows as spec;
ghost use Rattle.page_state.specs.Does.{Gives, itself};
ghost use Rattle.builtin_text.specs.Texts.{for_text};

use crate::characters::to_uint16;
use js_core::{OutOfMemory, TEXT_LIMIT, Units};
use js_values::{Throw, Value};
use page_state::{Fault, State, are_short};
use std::alloc::Global;

/// Whether a text may have so many units.
#[tactic(auto, unfolding(page_host::specs::HostNames::text_limit))]
pub fn is_short(units: &[u16]) -> bool
    ensures { result ≡ nat_le (length units.now) text_limit }
{
    units.len() <= TEXT_LIMIT as usize
}

/// The text of these units, which may be too many.
pub fn give_text(state: &mut State, units: &[u16]) -> Result<Value, Fault>
    ensures { Gives itself (λ _. spec.give_text units.now) state.old state.new result }
{
    if is_short(units) {
        Ok(Value::Text(Units::of(state.alloc(), units)?))
    } else {
        Err(state.raise(Throw::TextTooLong))
    }
}

/// `String(..)`; there are no objects of texts (section 15.5.1.1).
pub fn text_from(state: &mut State, construct: bool, values: &[Value]) -> Result<Value, Fault>
    ensures { Gives itself (λ calls. spec.text_from calls construct values.now) state.old
        state.new result }
{
    if construct {
        Err(state.raise(Throw::WrongArgument))
    } else {
        text_of_first(state, values)
    }
}

fn text_of_first(state: &mut State, values: &[Value]) -> Result<Value, Fault>
    ensures { Gives itself (λ calls. spec.text_from calls false values.now) state.old state.new
        result }
{
    match values {
        [] => Ok(Value::Text(Units::of(state.alloc(), &[])?)),
        [value, ..] => text_value(state, value),
    }
}

fn text_value(state: &mut State, value: &Value) -> Result<Value, Fault>
    ensures { Gives itself (λ calls. to_text calls value.now) state.old state.new result }
{
    match state.to_text(value) {
        Ok(text) => Ok(Value::Text(text)),
        Err(fault) => Err(fault),
    }
}

/// `String.fromCharCode` (section 15.5.3.2).
pub fn from_char_code(state: &mut State, values: &[Value]) -> Result<Value, Fault>
    ensures { Gives itself (λ calls. spec.from_units calls values.now []) state.old state.new
        result }
{
    let mut units = Vec::new(state.alloc());
    for value in values {
        let number = state.to_number(value)?;
        push(to_uint16(number), &mut units)?;
    }
    give_text(state, units.as_slice())
}

/// `concat`: each value is joined before the next one is made a text (section 15.5.4.6).
pub fn concat(state: &mut State, text: &Units, values: &[Value]) -> Result<Value, Fault>
    ensures { Gives itself (λ calls. spec.joined_to calls values.now text.now) state.old state.new
        result }
{
    let mut units = copied(state.alloc(), text.as_slice())?;
    for value in values {
        join(state, value, &mut units)?;
    }
    Ok(Value::Text(Units::of(state.alloc(), units.as_slice())?))
}

// The text of the value is appended, where that is not too long.
fn join(state: &mut State, value: &Value, units: &mut Vec<u16>) -> Result<(), Fault>
    ensures { Gives (for_text units.new.items) (λ calls. spec.join calls value.now
        units.old.items) state.old state.new result }
{
    let more = state.to_text(value)?;
    append(state, more.as_slice(), units)
}

fn append(state: &mut State, more: &[u16], units: &mut Vec<u16>) -> Result<(), Fault>
    ensures { Gives (for_text units.new.items) (λ _. spec.give_text (units.old.items ++ more.now))
        state.old state.new result }
{
    if are_short(units.as_slice(), more) {
        extend(more, units)?;
        Ok(())
    } else {
        Err(state.raise(Throw::TextTooLong))
    }
}

fn push(unit: u16, units: &mut Vec<u16>) -> Result<(), OutOfMemory>
    ensures { OnOk result (units.new.items ≡ units.old.items ++ unit ∷ []) }
{
    units.push(unit)?;
    Ok(())
}

fn extend(more: &[u16], units: &mut Vec<u16>) -> Result<(), OutOfMemory>
    ensures { OnOk result (units.new.items ≡ units.old.items ++ more.now) }
{
    units.extend_from_slice(more)?;
    Ok(())
}

fn copied(alloc: Global, units: &[u16]) -> Result<Vec<u16>, OutOfMemory>
    ensures { IfOk result (λ copy. copy.items ≡ units.now) }
{
    let mut copy = Vec::new(alloc);
    copy.extend_from_slice(units)?;
    Ok(copy)
}

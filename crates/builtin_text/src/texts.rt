//! What the prototype of texts does (ECMA-262 5.1 section 15.5.4).

ghost use Rattle.std.specs.Prelude.{◌≡◌, length};
ghost use Rattle.js_values.specs.declared.value.Value.TheVariants.{Num, Text};
ghost use Rattle.page_meaning.specs.Act.{also, give};
ghost use Rattle.page_meaning.specs.Convert.{number_in, text_in, to_number, to_text};
ghost use Rattle.page_meaning.specs.StringRows as spec;
ghost use Rattle.page_state.specs.Does.{Gives, itself};

use crate::characters::{lower_case, unit_at, unit_number, unit_text, upper_case};
use crate::cutting::{sliced, substring_of};
use crate::searching::{last_place_from, place_from, place_number};
use crate::strings::give_text;
use js_core::{Units, Whole};
use js_values::Value;
use page_state::{Fault, State};
use whole_ops::trimmed;

/// `charAt` (section 15.5.4.4).
pub fn char_at(state: &mut State, text: &Units, position: &Value) -> Result<Value, Fault>
    ensures { Gives itself (λ calls. spec.char_at calls position.now text.now) state.old state.new
        result }
{
    let position = state.to_number(position)?;
    let unit = unit_at(text.as_slice(), position);
    Ok(Value::Text(unit_text(state.alloc(), unit)?))
}

/// `charCodeAt` (section 15.5.4.5).
pub fn char_code_at(state: &mut State, text: &Units, position: &Value) -> Result<Value, Fault>
    ensures { Gives itself (λ calls. spec.char_code_at calls position.now text.now) state.old
        state.new result }
{
    let position = state.to_number(position)?;
    let unit = unit_at(text.as_slice(), position);
    Ok(Value::Num(unit_number(unit)))
}

/// `indexOf` (section 15.5.4.7).
pub fn index_of(
    state: &mut State,
    text: &Units,
    part: &Value,
    position: &Value,
) -> Result<Value, Fault>
    ensures { Gives itself (λ calls. spec.index_of calls part.now position.now text.now) state.old
        state.new result }
{
    let part = state.to_text(part)?;
    index_from(state, text, &part, position)
}

// The search begins at the position.
fn index_from(
    state: &mut State,
    text: &Units,
    part: &Units,
    position: &Value,
) -> Result<Value, Fault>
    ensures { Gives itself (λ calls. also (to_number calls position.now) (λ n. give (Num
        (spec.place_number (spec.first_place text.now part.now (spec.within (length text.now)
        (spec.to_integer (number_in n)))))))) state.old state.new result }
{
    let position = state.to_number(position)?;
    let place = place_from(text, part, position);
    Ok(Value::Num(place_number(place)?))
}

/// `lastIndexOf` (section 15.5.4.8).
pub fn last_index_of(
    state: &mut State,
    text: &Units,
    part: &Value,
    position: &Value,
) -> Result<Value, Fault>
    ensures { Gives itself (λ calls. spec.last_index_of calls part.now position.now text.now)
        state.old state.new result }
{
    let part = state.to_text(part)?;
    last_index_from(state, text, &part, position)
}

// The search begins at the position, and goes to the front.
fn last_index_from(
    state: &mut State,
    text: &Units,
    part: &Units,
    position: &Value,
) -> Result<Value, Fault>
    ensures { Gives itself (λ calls. also (to_number calls position.now) (λ n. give (Num
        (spec.place_number (spec.last_place text.now part.now (spec.last_start (length text.now)
        (number_in n))))))) state.old state.new result }
{
    let position = state.to_number(position)?;
    let place = last_place_from(text, part, position);
    Ok(Value::Num(place_number(place)?))
}

/// `slice` (section 15.5.4.13).
pub fn slice(state: &mut State, text: &Units, start: &Value, end: &Value) -> Result<Value, Fault>
    ensures { Gives itself (λ calls. spec.slice calls start.now end.now text.now) state.old
        state.new result }
{
    let from = state.to_number(start)?;
    slice_from(state, text, from, end)
}

fn slice_from(state: &mut State, text: &Units, from: Whole, end: &Value) -> Result<Value, Fault>
    ensures { Gives itself (λ calls. also (to_number calls end.now) (λ b. spec.give_text
        (spec.sliced text.now end.now from (number_in b)))) state.old state.new result }
{
    let to = state.to_number(end)?;
    give_text(state, sliced(text.as_slice(), end, from, to))
}

/// `substring` (section 15.5.4.15).
pub fn substring(
    state: &mut State,
    text: &Units,
    start: &Value,
    end: &Value,
) -> Result<Value, Fault>
    ensures { Gives itself (λ calls. spec.substring calls start.now end.now text.now) state.old
        state.new result }
{
    let from = state.to_number(start)?;
    substring_from(state, text, from, end)
}

fn substring_from(state: &mut State, text: &Units, from: Whole, end: &Value) -> Result<Value, Fault>
    ensures { Gives itself (λ calls. also (to_number calls end.now) (λ b. spec.give_text
        (spec.substring_of text.now end.now from (number_in b)))) state.old state.new result }
{
    let to = state.to_number(end)?;
    give_text(state, substring_of(text.as_slice(), end, from, to))
}

/// `toLowerCase` (section 15.5.4.16).
pub fn to_lower_case(state: &mut State, text: &Units) -> Result<Value, Fault>
    ensures { Gives itself (λ _. spec.lower_case text.now) state.old state.new result }
{
    let units = lower_case(state.alloc(), text.as_slice())?;
    give_text(state, units.as_slice())
}

/// `toUpperCase` (section 15.5.4.18).
pub fn to_upper_case(state: &mut State, text: &Units) -> Result<Value, Fault>
    ensures { Gives itself (λ _. spec.upper_case text.now) state.old state.new result }
{
    let units = upper_case(state.alloc(), text.as_slice())?;
    give_text(state, units.as_slice())
}

/// `trim` (section 15.5.4.20).
pub fn trim(state: &mut State, text: &Units) -> Result<Value, Fault>
    ensures { Gives itself (λ _. spec.trim text.now) state.old state.new result }
{
    give_text(state, trimmed(text.as_slice()))
}

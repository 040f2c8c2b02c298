//! `split` (ECMA-262 5.1 section 15.5.4.14).

ghost use Rattle.std.specs.Prelude.{◌≡◌, [], ◌∷◌, IfOk, nat_le, length, take};
ghost use Rattle.std.specs.List.{list_all};
ghost use Rattle.js_values.specs.declared.value.Value.TheVariants.{Object};
ghost use Rattle.page_meaning.specs.Act.{also};
ghost use Rattle.page_meaning.specs.Convert.{text_in, to_text};
ghost use Rattle.page_meaning.specs.ObjectRows.{new_texts as spec_texts};
ghost use Rattle.page_host.specs.HostNames.{text_limit};
ghost use Rattle.page_meaning.specs.StringRows as spec;
ghost use Rattle.page_state.specs.Does.{Gives, itself};

use crate::splitting::parts_of;
use crate::strings::is_short;
use js_core::{OutOfMemory, Units, Whole};
use js_values::{ObjId, Throw, Value};
use new_lists::new_texts;
use page_state::{Fault, State};
use std::alloc::Global;
use whole_ops::to_uint32;

/// `split`: the limit is converted before the separator.
pub fn split(
    state: &mut State,
    text: &Units,
    separator: &Value,
    limit: &Value,
) -> Result<Value, Fault>
    ensures { Gives itself (λ calls. spec.split calls separator.now limit.now text.now) state.old
        state.new result }
{
    let number = state.to_number(limit)?;
    let parts = split_within(state, text, separator, part_limit(limit, number))?;
    Ok(Value::Object(parts))
}

// How many parts there may be.
fn part_limit(value: &Value, number: Whole) -> u32
    ensures { result ≡ spec.part_limit value.now number }
{
    match value {
        Value::Undefined => u32::MAX,
        Value::Null | Value::Bool(_) | Value::Num(_) | Value::Text(_) | Value::Object(_) =>
            to_uint32(number),
    }
}

fn split_within(
    state: &mut State,
    text: &Units,
    separator: &Value,
    limit: u32,
) -> Result<ObjId, Fault>
    ensures { Gives Object (λ calls. also (to_text calls separator.now) (λ x. spec.split_by
        separator.now (text_in x) limit text.now)) state.old state.new result }
{
    let between = state.to_text(separator)?;
    split_by(state, text, separator, &between, limit as usize)
}

// The text of the separator stands between the parts; without a separator the text itself is the only part.
fn split_by(
    state: &mut State,
    text: &Units,
    separator: &Value,
    between: &Units,
    limit: usize,
) -> Result<ObjId, Fault>
    ensures { Gives Object (λ _. spec.split_by separator.now between.now limit text.now) state.old
        state.new result }
{
    match separator {
        Value::Undefined => whole_text(state, text, limit),
        _ => split_at(state, text, between, limit),
    }
}

fn whole_text(state: &mut State, text: &Units, limit: usize) -> Result<ObjId, Fault>
    ensures { Gives Object (λ _. spec_texts (take limit (text.now ∷ []))) state.old state.new
        result }
{
    let parts = one_part(state.alloc(), text, limit)?;
    new_texts(state, parts.as_slice())
}

fn one_part(alloc: Global, text: &Units, limit: usize) -> Result<Vec<Units>, OutOfMemory>
    ensures { IfOk result (λ parts. parts.items ≡ take limit (text.now ∷ [])) }
{
    let mut parts = Vec::new(alloc);
    parts.push(text.clone()?)?;
    parts.truncate(limit);
    Ok(parts)
}

fn split_at(state: &mut State, text: &Units, between: &Units, limit: usize) -> Result<ObjId, Fault>
    ensures { Gives Object (λ _. spec.list_of_parts (take limit (spec.parts_of between.now
        text.now))) state.old state.new result }
{
    let parts = parts_of(state.alloc(), text.as_slice(), between.as_slice(), limit)?;
    list_of_parts(state, parts.as_slice())
}

// A new array of the parts, which may be too long.
fn list_of_parts(state: &mut State, parts: &[Units]) -> Result<ObjId, Fault>
    ensures { Gives Object (λ _. spec.list_of_parts parts.now) state.old state.new result }
{
    if are_short(parts) {
        new_texts(state, parts)
    } else {
        Err(state.raise(Throw::TextTooLong))
    }
}

fn are_short(parts: &[Units]) -> bool
    ensures { result ≡ list_all (λ x. nat_le (length x) text_limit) parts.now }
{
    parts.iter().all(|part| is_short(part.as_slice()))
}

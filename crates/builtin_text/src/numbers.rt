//! Numbers as values, and the functions of the global object on them (ECMA-262 5.1 sections 15.1.2 and 15.7).

ghost use Rattle.std.specs.Prelude.{◌≡◌, false, is_none, is_some};
ghost use Rattle.js_values.specs.declared.value.Value.TheVariants.{Num};
ghost use Rattle.page_meaning.specs.Act.{also, give};
ghost use Rattle.page_meaning.specs.Convert.{as_number, number_in, to_number};
ghost use Rattle.page_meaning.specs.Errors.{settle};
ghost use Rattle.page_meaning.specs.NumberRows as spec;
ghost use Rattle.page_state.specs.Does.{Gives, itself};

use crate::parsing::parsed;
use crate::radix::{radix_of, text_in_radix};
use js_core::{Units, Whole};
use js_values::{Throw, Value};
use page_state::{Fault, State};

/// `Number(..)`; there are no objects of numbers (section 15.7.1.1).
pub fn number_from(state: &mut State, construct: bool, values: &[Value]) -> Result<Whole, Fault>
    ensures { Gives Num (λ calls. spec.number_from calls construct values.now) state.old state.new
        result }
{
    if construct {
        Err(state.raise(Throw::WrongArgument))
    } else {
        number_of_first(state, values)
    }
}

fn number_of_first(state: &mut State, values: &[Value]) -> Result<Whole, Fault>
    ensures { Gives Num (λ calls. spec.number_from calls false values.now) state.old state.new
        result }
{
    match values {
        [] => Ok(Whole::new(0).unwrap()),
        [value, ..] => state.to_number(value),
    }
}

/// `isNaN` (section 15.1.2.4).
pub fn is_not_a_number(state: &mut State, value: &Value) -> Result<Value, Fault>
    ensures { Gives itself (λ calls. spec.is_not_a_number calls value.now) state.old state.new
        result }
{
    let number = state.to_number(value)?;
    Ok(Value::Bool(is_nan(number)))
}

/// `isFinite`: all numbers but NaN are finite (section 15.1.2.5).
pub fn is_finite(state: &mut State, value: &Value) -> Result<Value, Fault>
    ensures { Gives itself (λ calls. spec.is_finite calls value.now) state.old state.new result }
{
    let number = state.to_number(value)?;
    Ok(Value::Bool(is_number(number)))
}

fn is_nan(number: Whole) -> bool
    ensures { result ≡ is_none number }
{
    number.get().is_none()
}

fn is_number(number: Whole) -> bool
    ensures { result ≡ is_some number }
{
    number.get().is_some()
}

/// `parseInt` (section 15.1.2.2).
pub fn parse_int(state: &mut State, text: &Value, radix: &Value) -> Result<Whole, Fault>
    ensures { Gives Num (λ calls. spec.parse_int calls text.now radix.now) state.old state.new
        result }
{
    let text = state.to_text(text)?;
    parse_text(state, &text, radix)
}

fn parse_text(state: &mut State, text: &Units, radix: &Value) -> Result<Whole, Fault>
    ensures { Gives Num (λ calls. also (to_number calls radix.now) (λ r. settle (as_number
        (spec.parsed text.now (number_in r))))) state.old state.new result }
{
    let radix = state.to_number(radix)?;
    state.in_range(parsed(text.as_slice(), radix))
}

/// `Number.prototype.toString` (section 15.7.4.2).
pub fn number_text(state: &mut State, this: &Value, radix: &Value) -> Result<Value, Fault>
    ensures { Gives itself (λ calls. spec.on_number this.now (spec.number_text calls radix.now))
        state.old state.new result }
{
    match this {
        Value::Num(number) => text_of_number(state, *number, radix),
        _ => Err(state.raise(Throw::WrongArgument)),
    }
}

fn text_of_number(state: &mut State, number: Whole, radix: &Value) -> Result<Value, Fault>
    ensures { Gives itself (λ calls. spec.number_text calls radix.now number) state.old state.new
        result }
{
    let asked = state.to_number(radix)?;
    match radix_of(radix, asked) {
        Some(base) => Ok(Value::Text(text_in_radix(state.alloc(), base, number)?)),
        None => Err(state.raise(Throw::OutOfRange)),
    }
}

/// `Number.prototype.valueOf` (section 15.7.4.4).
pub fn number_itself(state: &mut State, this: &Value) -> Result<Value, Fault>
    ensures { Gives itself (λ _. spec.on_number this.now (λ n. give (Num n))) state.old state.new
        result }
{
    match this {
        Value::Num(number) => Ok(Value::Num(*number)),
        _ => Err(state.raise(Throw::WrongArgument)),
    }
}

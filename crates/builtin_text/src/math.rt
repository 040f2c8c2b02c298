//! The functions of `Math` on values (ECMA-262 5.1 section 15.8.2).

ghost use Rattle.std.specs.Prelude.{◌≡◌, drop, option_map, pos, unsigned_abs};
ghost use Rattle.js_values.specs.declared.value.Value.TheVariants.{Num};
ghost use Rattle.page_meaning.specs.Act.{also};
ghost use Rattle.page_meaning.specs.Convert.{as_number, number_in, to_number};
ghost use Rattle.page_meaning.specs.Errors.{settle};
ghost use Rattle.page_meaning.specs.MathRows as spec;
ghost use Rattle.page_state.specs.Does.{Gives};
ghost use Rattle.whole_ops.specs.Power.{whole_pow};
ghost use Rattle.builtin_text.specs.Picks.{pick_of as spec_pick};

use js_core::Whole;
use js_values::{Throw, Value};
use page_state::{Fault, State};
use whole_ops::pow;

/// Which of two numbers is picked.
#[derive(Clone, Copy)]
pub enum Pick {
    /// The larger one.
    Larger,
    /// The smaller one.
    Smaller,
}

impl Pick {
    fn of(self, a: Whole, b: Whole) -> Whole
        ensures { result ≡ spec_pick self a b }
    {
        match self {
            Pick::Larger => larger(a, b),
            Pick::Smaller => smaller(a, b),
        }
    }
}

/// `Math.abs` (section 15.8.2.1).
pub fn abs(state: &mut State, value: &Value) -> Result<Whole, Fault>
    ensures { Gives Num (λ calls. spec.absolute calls value.now) state.old state.new result }
{
    let number = state.to_number(value)?;
    Ok(absolute(number))
}

/// `Math.ceil`, `Math.floor` and `Math.round` (sections 15.8.2.6, 15.8.2.9 and 15.8.2.15).
pub fn round(state: &mut State, number: &Value) -> Result<Whole, Fault>
    ensures { Gives Num (λ calls. spec.rounded calls number.now) state.old state.new result }
{
    state.to_number(number)
}

/// `Math.pow` (section 15.8.2.13).
pub fn power(state: &mut State, base: &Value, exponent: &Value) -> Result<Whole, Fault>
    ensures { Gives Num (λ calls. spec.power calls base.now exponent.now) state.old state.new
        result }
{
    let base = state.to_number(base)?;
    power_of(state, base, exponent)
}

fn power_of(state: &mut State, base: Whole, exponent: &Value) -> Result<Whole, Fault>
    ensures { Gives Num (λ calls. also (to_number calls exponent.now) (λ b. settle (as_number
        (whole_pow base (number_in b))))) state.old state.new result }
{
    let exponent = state.to_number(exponent)?;
    state.in_range(pow(base, exponent))
}

/// `Math.max` and `Math.min`: all values are made numbers, in order (sections 15.8.2.11 and 15.8.2.12).
pub fn pick_of(state: &mut State, pick: Pick, values: &[Value]) -> Result<Whole, Fault>
    ensures { Gives Num (λ calls. spec.picked_of calls (spec_pick pick) values.now) state.old
        state.new result }
{
    match values {
        [] => Err(state.raise(Throw::OutOfRange)),
        [first, ..] => pick_first(state, pick, first, values),
    }
}

// The first value is this one.
fn pick_first(
    state: &mut State,
    pick: Pick,
    first: &Value,
    values: &[Value],
) -> Result<Whole, Fault>
    ensures { Gives Num (λ calls. also (to_number calls first.now) (λ n. spec.picked calls
        (spec_pick pick) (drop 1 values.now) (number_in n))) state.old state.new result }
{
    let number = state.to_number(first)?;
    pick_rest(state, pick, number, values)
}

// The first value, whose number this is, is passed over.
fn pick_rest(state: &mut State, pick: Pick, number: Whole, values: &[Value]) -> Result<Whole, Fault>
    ensures { Gives Num (λ calls. spec.picked calls (spec_pick pick) (drop 1 values.now) number)
        state.old state.new result }
{
    let mut best = number;
    for index in 1..values.len() {
        let other = state.to_number(&values[index])?;
        best = pick.of(best, other);
    }
    Ok(best)
}

// The number without its sign.
fn absolute(number: Whole) -> Whole
    ensures { result ≡ option_map (λ z. pos (unsigned_abs z)) number }
{
    match number.get() {
        Some(n) => Whole::new(n.abs()).unwrap(),
        None => Whole::nan(),
    }
}

// The larger of two numbers, NaN where one of them is.
fn larger(a: Whole, b: Whole) -> Whole
    ensures { result ≡ spec.larger a b }
{
    match (a.get(), b.get()) {
        (Some(x), Some(y)) => if x < y { b } else { a },
        _ => Whole::nan(),
    }
}

// The smaller of two numbers, NaN where one of them is.
fn smaller(a: Whole, b: Whole) -> Whole
    ensures { result ≡ spec.smaller a b }
{
    match (a.get(), b.get()) {
        (Some(x), Some(y)) => if y < x { b } else { a },
        _ => Whole::nan(),
    }
}

//! What the functions of timers do.

ghost use Rattle.std.specs.Prelude.{◌≡◌, max, ℕ};
ghost use Rattle.js_values.specs.declared.ids.ObjId.{ObjId as Id};
ghost use Rattle.page_meaning.specs.TimerRows as spec;
ghost use Rattle.page_state.specs.Does.{Gives, itself};
ghost use Rattle.timer_rows.specs.Coming.{Comes};

use js_core::Whole;
use js_values::{BuiltIn, ObjId, Throw, Value};
use page_state::{Fault, State, argument, index_value};

/// What a built-in function does when it is called with the arguments: its value, or what it throws.
pub fn row(state: &mut State, which: BuiltIn, args: &[Value]) -> Result<Value, Fault>
    ensures { Gives itself (λ calls. spec.timer_row calls which args.now) state.old state.new
        result }
{
    match which {
        BuiltIn::SetTimeout => set_timeout(state, args),
        BuiltIn::SetInterval => set_interval(state, args),
        BuiltIn::SetIntervalFrom => set_interval_from(state, args),
        BuiltIn::ClearTimeout | BuiltIn::ClearInterval => clear(state, args),
        _ => Err(state.raise(Throw::WrongArgument)),
    }
}

fn set_timeout(state: &mut State, args: &[Value]) -> Result<Value, Fault>
    ensures { Gives itself (λ calls. spec.with_function args.now 2 (λ f.
        spec.with_time calls args.now 1 (λ delay. spec.start delay None f))) state.old state.new
        result }
{
    let function = function_of(state, args, 2)?;
    let delay = time(state, args, 1)?;
    start(state, delay, None, function)
}

// An interval comes first after its period.
fn set_interval(state: &mut State, args: &[Value]) -> Result<Value, Fault>
    ensures { Gives itself (λ calls. spec.with_function args.now 2 (λ f.
        spec.with_time calls args.now 1 (λ period.
        spec.start (max 1 period) (Some (max 1 period)) f))) state.old state.new result }
{
    let function = function_of(state, args, 2)?;
    let time = time(state, args, 1)?;
    let period = at_least_one(time);
    start(state, period, Some(period), function)
}

// An interval whose first firing has a delay of its own.
fn set_interval_from(state: &mut State, args: &[Value]) -> Result<Value, Fault>
    ensures { Gives itself (λ calls. spec.with_function args.now 3 (λ f.
        spec.with_time calls args.now 1 (λ delay. spec.with_time calls args.now 2 (λ period.
        spec.start delay (Some (max 1 period)) f)))) state.old state.new result }
{
    let function = function_of(state, args, 3)?;
    let delay = time(state, args, 1)?;
    let time = time(state, args, 2)?;
    let period = at_least_one(time);
    start(state, delay, Some(period), function)
}

// A timer that is live is removed.
fn clear(state: &mut State, args: &[Value]) -> Result<Value, Fault>
    ensures { Gives itself (λ calls. spec.clear calls args.now) state.old state.new result }
{
    let id = time(state, args, 0)?;
    state.clear_timer(id);
    Ok(Value::Undefined)
}

// The function, and no more than so many arguments.
fn function_of(state: &mut State, args: &[Value], most: usize) -> Result<ObjId, Fault>
    ensures { Comes Id (λ _. spec.with_function args.now most) state.old state.new result }
{
    let value = argument(args, 0)?;
    let function = state.callback(&value)?;
    if args.len() <= most {
        Ok(function)
    } else {
        Err(state.raise(Throw::WrongArgument))
    }
}

// An argument as a time.
fn time(state: &mut State, args: &[Value], index: usize) -> Result<u64, Fault>
    ensures { Comes ℕ (λ calls. spec.with_time calls args.now index) state.old state.new result }
{
    let value = argument(args, index)?;
    let number = state.to_number(&value)?;
    Ok(time_of(number))
}

// What is no number, and what is below 0, is 0.
fn time_of(number: Whole) -> u64
    ensures { result ≡ spec.time_in number }
{
    match number.get() {
        Some(n) => if n < 0 { 0 } else { n as u64 },
        None => 0,
    }
}

// A period is at least 1.
fn at_least_one(period: u64) -> u64
    ensures { result ≡ max 1 period }
{
    if period < 1 { 1 } else { period }
}

// The timer starts and gives its id, where not as many are live as may be.
fn start(
    state: &mut State,
    delay: u64,
    period: Option<u64>,
    function: ObjId,
) -> Result<Value, Fault>
    ensures { Gives itself (λ _. spec.start delay period function) state.old state.new result }
{
    match state.start_timer(delay, period, function)? {
        Some(id) => Ok(index_value(u64::from(id))?),
        None => Err(state.raise(Throw::OutOfRange)),
    }
}

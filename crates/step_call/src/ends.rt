//! What a call makes of the end of its body, or of another call (ECMA-262 5.1 sections 13.2.1 and 13.2.2).

ghost use Rattle.std.specs.Prelude.{◌≡◌, ◌<◌, IfOk};
ghost use Rattle.page_meaning.specs.Functions.{call_end as spec_end};
ghost use Rattle.page_frames.specs.RestCalls as spec;
ghost use Rattle.page_frames.specs.Step.{Steps};

use js_core::OutOfMemory;
use js_values::Value;
use page_frames::{CalledFrame, Frame, Meter, Next};
use page_meaning::Signal;
use page_state::{State, built};

/// A call whose body, or whose other call, has ended: it gives its level of depth back (sections 13.2.1 and 13.2.2).
pub fn go_called(
    _state: &State,
    frame: CalledFrame,
    end: Signal,
    meter: &mut Meter,
) -> Result<Next, OutOfMemory>
    requires { meter.old.depth < 4294967295 }
    ensures { IfOk result (λ n.
        Steps (Frame.Called frame) end _state.now meter.old n _state.now meter.new) }
{
    meter.depth += 1;
    Ok(Next::Give(ended(frame.body, frame.fresh, end)))
}

// What a call gives.
fn ended(body: bool, fresh: Option<Value>, end: Signal) -> Signal
    ensures { result ≡ spec.ended body fresh end }
{
    if body {
        with_fresh(fresh, call_end(end))
    } else {
        end
    }
}

/// What the end of a body gives: the value that it returned, or undefined (section 13.2.1).
pub fn call_end(end: Signal) -> Signal
    ensures { result ≡ spec_end end }
{
    match end {
        Signal::Return(value) => Signal::Value(value),
        Signal::Thrown(value) => Signal::Thrown(value),
        Signal::Value(_) | Signal::Break | Signal::Continue => Signal::Value(Value::Undefined),
    }
}

// The fresh object of a construction takes the place of a value that is no object.
fn with_fresh(fresh: Option<Value>, end: Signal) -> Signal
    ensures { result ≡ spec.with_fresh fresh end }
{
    match end {
        Signal::Value(value) => Signal::Value(or_fresh(fresh, value)),
        Signal::Return(_) | Signal::Thrown(_) | Signal::Break | Signal::Continue => end,
    }
}

fn or_fresh(fresh: Option<Value>, value: Value) -> Value
    ensures { result ≡ spec.or_fresh fresh value }
{
    match fresh {
        Some(Value::Object(made)) => built(made, value),
        _ => value,
    }
}

//! Ends of statements (ECMA-262 5.1 section 8.9).

ghost use Rattle.std.specs.Prelude.{◌≡◌};
ghost use Rattle.page_meaning.specs.Act as act;
ghost use Rattle.page_meaning.specs.Loops.{turned};
ghost use Rattle.page_meaning.specs.Statements as spec;
ghost use Rattle.page_frames.specs.declared.meter.Next.TheVariants.{Give};
ghost use Rattle.step_stmt.specs.Ends.{ended_or};

use js_values::Value;
use page_frames::Next;
use page_meaning::Signal;

/// The end of a statement that ends by itself.
pub(crate) fn nothing() -> Next
    ensures { result ≡ Give act.nothing }
{
    Next::Give(Signal::Value(Value::Undefined))
}

/// How a loop ends with a body that has ended so, or `None` where it goes on (section 12.6).
pub(crate) fn loop_end(end: Signal) -> Option<Signal>
    ensures { (next : act.Act) → turned next end ≡ ended_or result next }
{
    match end {
        Signal::Value(_) => None,
        Signal::Continue => None,
        Signal::Break => Some(Signal::Value(Value::Undefined)),
        other => Some(other),
    }
}

/// The end of a `switch` whose statements have ended so: `break` ends it by itself (section 12.11).
pub(crate) fn unbroken(end: Signal) -> Signal
    ensures { result ≡ spec.unbroken end }
{
    match end {
        Signal::Break => Signal::Value(Value::Undefined),
        other => other,
    }
}

//! Ends of what is done at once, and steps that are taken.

ghost use Rattle.std.specs.Prelude.{◌≡◌, ◌≢◌, IfOk, suc, ℕ};
ghost use Rattle.page_meaning.specs.Act.{Act, Calls};
ghost use Rattle.page_meaning.specs.Calls.{calls_at};
ghost use Rattle.page_meaning.specs.Store.{Store};
ghost use Rattle.page_frames.specs.declared.meter.Meter.{Meter as Metered};
ghost use Rattle.page_frames.specs.Step.{Leads};
ghost use Rattle.page_state.specs.Does.{Does, Gives, itself};

use js_core::OutOfMemory;
use js_values::Value;
use page_frames::{Meter, Next};
use page_meaning::Signal;
use page_state::Fault;

/// The end that an answer is: its value, or its exception.
pub fn signal_of(answer: Result<Value, Fault>) -> Result<Signal, OutOfMemory>
    ensures { (act : Calls → Act) (s t : Store) → Gives itself act s t answer →
        IfOk result (λ g. Does act s g t) }
{
    match answer {
        Ok(value) => Ok(Signal::Value(value)),
        Err(Fault::Cause(value)) => Ok(Signal::Thrown(value)),
        Err(Fault::OutOfMemory) => Err(OutOfMemory),
    }
}

/// What is done at once leads to its end.
pub fn give(answer: Result<Value, Fault>) -> Result<Next, OutOfMemory>
    ensures { (act : Calls → Act) (s t : Store) (weight : ℕ) (m : Metered) →
        Gives itself act s t answer →
        IfOk result (λ n. Leads (act (calls_at m.depth)) weight s m n t m) }
{
    Ok(Next::Give(signal_of(answer)?))
}

/// Takes a step, where one is left.
pub fn take_step(meter: &mut Meter)
    requires { meter.old.steps ≢ 0 }
    ensures steps { meter.old.steps ≡ suc meter.new.steps }
    ensures depth { meter.new.depth ≡ meter.old.depth }
{
    meter.steps -= 1;
}

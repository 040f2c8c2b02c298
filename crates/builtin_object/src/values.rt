//! Truth values and arrays as values (ECMA-262 5.1 sections 15.4.3 and 15.6).

ghost use Rattle.std.specs.Prelude.{Ok};
ghost use Rattle.js_values.specs.declared.value.Value.TheVariants.{Bool as Truth};
ghost use Rattle.page_meaning.specs.ValueRows as spec;
ghost use Rattle.page_state.specs.Does.{Gives, itself};

use js_values::{Throw, Value};
use page_state::{Fault, State, text_of};
use whole_ops::is_true;

/// `Array.isArray` (section 15.4.3.2).
pub fn is_array(state: &State, value: &Value) -> bool
    ensures { Gives Truth (λ _. spec.is_array value.now) state.now state.now (Ok result) }
{
    match value {
        Value::Object(at) => state.class(*at).is_list(),
        _ => false,
    }
}

/// `Boolean(..)`; there are no objects of truth values (section 15.6.1.1).
pub fn truth_from(state: &mut State, construct: bool, value: &Value) -> Result<bool, Fault>
    ensures { Gives Truth (λ _. spec.truth_from construct value.now) state.old state.new result }
{
    if construct {
        Err(state.raise(Throw::WrongArgument))
    } else {
        Ok(is_true(value))
    }
}

/// `Boolean.prototype.toString` (section 15.6.4.2).
pub fn truth_text(state: &mut State, value: &Value) -> Result<Value, Fault>
    ensures { Gives itself (λ _. spec.truth_text value.now) state.old state.new result }
{
    match value {
        Value::Bool(_) => Ok(Value::Text(text_of(state.alloc(), value)?)),
        _ => Err(state.raise(Throw::WrongArgument)),
    }
}

/// `Boolean.prototype.valueOf` (section 15.6.4.3).
pub fn truth_itself(state: &mut State, value: &Value) -> Result<Value, Fault>
    ensures { Gives itself (λ _. spec.truth_itself value.now) state.old state.new result }
{
    match value {
        Value::Bool(truth) => Ok(Value::Bool(*truth)),
        _ => Err(state.raise(Throw::WrongArgument)),
    }
}

//! The built-in functions that put out lines.

ghost use Rattle.js_values.specs.declared.line.LineKind.TheVariants.{Alert, Log};
ghost use Rattle.page_meaning.specs.Act.{bind, done};
ghost use Rattle.page_meaning.specs.Lines.{log_text, log_texts};
ghost use Rattle.page_meaning.specs.Primitives.{put_line};
ghost use Rattle.page_state.specs.Does.{Gives, itself};

use js_values::{LineKind, Value};
use page_state::{Fault, State};

/// `alert`: one line of the value's text.
pub fn alert(state: &mut State, value: &Value) -> Result<Value, Fault>
    ensures { Gives itself (λ _. bind (put_line Alert (λ s. log_text s value.now)) (λ _. done))
        state.old state.new result }
{
    let text = state.log_text(value)?;
    state.put_line(LineKind::Alert, text)?;
    Ok(Value::Undefined)
}

/// `console.log`: one line of the values' texts.
pub fn log(state: &mut State, values: &[Value]) -> Result<Value, Fault>
    ensures { Gives itself (λ _. bind (put_line Log (log_texts values.now)) (λ _. done)) state.old
        state.new result }
{
    let text = state.log_texts(values)?;
    state.put_line(LineKind::Log, text)?;
    Ok(Value::Undefined)
}

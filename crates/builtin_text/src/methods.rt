//! The functions of the prototype of texts, which ask that `this` is a text before anything else (ECMA-262 5.1 section 15.5.4).

ghost use Rattle.std.specs.Prelude.{◌≡◌};
ghost use Rattle.page_meaning.specs.ObjectRows.{argument as spec_argument};
ghost use Rattle.page_meaning.specs.StringRows.{on_text as spec_on_text};
ghost use Rattle.page_state.specs.Does.{Gives, itself};
ghost use Rattle.builtin_text.specs.Methods.{method_of};

use crate::parts::split;
use crate::strings::concat;
use crate::texts;
use js_core::Units;
use js_values::{Throw, Value};
use page_state::{Fault, State, argument};

/// A function of the prototype of texts.
#[derive(Clone, Copy)]
pub enum Method {
    /// `toString` and `valueOf`
    Itself,
    /// `charAt`
    CharAt,
    /// `charCodeAt`
    CharCodeAt,
    /// `concat`
    Concat,
    /// `indexOf`
    IndexOf,
    /// `lastIndexOf`
    LastIndexOf,
    /// `slice`
    Slice,
    /// `split`
    Split,
    /// `substring`
    Substring,
    /// `toLowerCase`
    LowerCase,
    /// `toUpperCase`
    UpperCase,
    /// `trim`
    Trim,
}

/// What the function does with `this`, which must be a text, and the arguments.
pub fn on_text(
    state: &mut State,
    method: Method,
    this: &Value,
    args: &[Value],
) -> Result<Value, Fault>
    ensures { Gives itself (λ calls. spec_on_text this.now (method_of calls method args.now))
        state.old state.new result }
{
    match this {
        Value::Text(text) => with_text(state, method, text, args),
        _ => Err(state.raise(Throw::WrongArgument)),
    }
}

fn with_text(
    state: &mut State,
    method: Method,
    text: &Units,
    args: &[Value],
) -> Result<Value, Fault>
    ensures { Gives itself (λ calls. method_of calls method args.now text.now) state.old state.new
        result }
{
    let first = argument(args, 0)?;
    let second = argument(args, 1)?;
    with_arguments(state, method, text, args, &first, &second)
}

// The arguments stand before what they are, of which there may be fewer.
fn with_arguments(
    state: &mut State,
    method: Method,
    text: &Units,
    args: &[Value],
    first: &Value,
    second: &Value,
) -> Result<Value, Fault>
    requires first { first.now ≡ spec_argument args.now 0 }
    requires second { second.now ≡ spec_argument args.now 1 }
    ensures { Gives itself (λ calls. method_of calls method args.now text.now) state.old state.new
        result }
{
    match method {
        Method::Itself => Ok(Value::Text(text.clone()?)),
        Method::CharAt => texts::char_at(state, text, first),
        Method::CharCodeAt => texts::char_code_at(state, text, first),
        Method::Concat => concat(state, text, args),
        Method::IndexOf => texts::index_of(state, text, first, second),
        Method::LastIndexOf => texts::last_index_of(state, text, first, second),
        Method::Slice => texts::slice(state, text, first, second),
        Method::Split => split(state, text, first, second),
        Method::Substring => texts::substring(state, text, first, second),
        Method::LowerCase => texts::to_lower_case(state, text),
        Method::UpperCase => texts::to_upper_case(state, text),
        Method::Trim => texts::trim(state, text),
    }
}

//! Which built-in function does what.

ghost use Rattle.std.specs.Prelude.{◌≡◌};
ghost use Rattle.js_values.specs.declared.value.Value.TheVariants.{Num};
ghost use Rattle.page_meaning.specs.Act.{Act, Calls};
ghost use Rattle.page_meaning.specs.ObjectRows.{argument as spec_argument};
ghost use Rattle.page_meaning.specs.Store.{Store};
ghost use Rattle.page_meaning.specs.TextRows.{text_row};
ghost use Rattle.page_state.specs.Does.{Gives, itself};

use crate::math::{self, Pick};
use crate::methods::{Method, on_text};
use crate::numbers;
use crate::strings::{from_char_code, text_from};
use js_core::Whole;
use js_values::{BuiltIn, Throw, Value};
use page_state::{Fault, State, argument};

/// What a built-in function of texts or numbers does when it is called or constructed with `this` and the arguments: its value,
/// or what it throws. Any other function throws that an argument is wrong.
pub fn row(
    state: &mut State,
    construct: bool,
    which: BuiltIn,
    this: &Value,
    args: &[Value],
) -> Result<Value, Fault>
    ensures { Gives itself (λ calls. text_row calls construct which this.now args.now) state.old
        state.new result }
{
    let first = argument(args, 0)?;
    let second = argument(args, 1)?;
    row_on(state, construct, which, this, args, &first, &second)
}

// The arguments stand before what they are, of which there may be fewer.
fn row_on(
    state: &mut State,
    construct: bool,
    which: BuiltIn,
    this: &Value,
    args: &[Value],
    first: &Value,
    second: &Value,
) -> Result<Value, Fault>
    requires first { first.now ≡ spec_argument args.now 0 }
    requires second { second.now ≡ spec_argument args.now 1 }
    ensures { Gives itself (λ calls. text_row calls construct which this.now args.now) state.old
        state.new result }
{
    match which {
        BuiltIn::IsNaN => numbers::is_not_a_number(state, first),
        BuiltIn::IsFinite => numbers::is_finite(state, first),
        BuiltIn::ParseInt => as_number(numbers::parse_int(state, first, second)),
        BuiltIn::String => text_from(state, construct, args),
        BuiltIn::StringFromCharCode => from_char_code(state, args),
        BuiltIn::StringPrototypeToString => on_text(state, Method::Itself, this, args),
        BuiltIn::StringPrototypeValueOf => on_text(state, Method::Itself, this, args),
        BuiltIn::StringPrototypeCharAt => on_text(state, Method::CharAt, this, args),
        BuiltIn::StringPrototypeCharCodeAt => on_text(state, Method::CharCodeAt, this, args),
        BuiltIn::StringPrototypeConcat => on_text(state, Method::Concat, this, args),
        BuiltIn::StringPrototypeIndexOf => on_text(state, Method::IndexOf, this, args),
        BuiltIn::StringPrototypeLastIndexOf => on_text(state, Method::LastIndexOf, this, args),
        BuiltIn::StringPrototypeSlice => on_text(state, Method::Slice, this, args),
        BuiltIn::StringPrototypeSplit => on_text(state, Method::Split, this, args),
        BuiltIn::StringPrototypeSubstring => on_text(state, Method::Substring, this, args),
        BuiltIn::StringPrototypeToLowerCase => on_text(state, Method::LowerCase, this, args),
        BuiltIn::StringPrototypeToUpperCase => on_text(state, Method::UpperCase, this, args),
        BuiltIn::StringPrototypeTrim => on_text(state, Method::Trim, this, args),
        BuiltIn::Number => as_number(numbers::number_from(state, construct, args)),
        BuiltIn::NumberPrototypeToString => numbers::number_text(state, this, first),
        BuiltIn::NumberPrototypeValueOf => numbers::number_itself(state, this),
        BuiltIn::MathAbs => as_number(math::abs(state, first)),
        BuiltIn::MathCeil => as_number(math::round(state, first)),
        BuiltIn::MathFloor => as_number(math::round(state, first)),
        BuiltIn::MathMax => as_number(math::pick_of(state, Pick::Larger, args)),
        BuiltIn::MathMin => as_number(math::pick_of(state, Pick::Smaller, args)),
        BuiltIn::MathPow => as_number(math::power(state, first, second)),
        BuiltIn::MathRound => as_number(math::round(state, first)),
        _ => Err(state.raise(Throw::WrongArgument)),
    }
}

fn as_number(answer: Result<Whole, Fault>) -> Result<Value, Fault>
    ensures { (act : Calls → Act) (s t : Store) → Gives Num act s t answer → Gives itself act s t
        result }
{
    match answer {
        Ok(number) => Ok(Value::Num(number)),
        Err(fault) => Err(fault),
    }
}

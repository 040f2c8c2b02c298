//! Which built-in function of arrays does what.

ghost use Rattle.std.specs.Prelude.{◌≡◌};
ghost use Rattle.page_meaning.specs.Rows.{list_row, list_row_on};
ghost use Rattle.page_state.specs.Does.{itself};
ghost use Rattle.page_state.specs.Turns.{Ends};
ghost use Rattle.builtin_list.specs.Lists.{lifted};

use crate::concatenation::concat;
use crate::ends::{pop, push, shift, unshift};
use crate::joining::join;
use crate::reversal::reverse;
use crate::searching::{index_of, last_index_of};
use crate::slicing::slice;
use crate::splicing::splice;
use js_values::{BuiltIn, ObjId, Throw, Value};
use page_state::{Fault, Halt, State};

/// What a built-in function of arrays does when it is called on `this` with the arguments, with so many steps left: its value, what it
/// throws, or that it stops. What it does not take has the steps that are left then.
pub fn row(
    state: &mut State,
    steps: &mut u64,
    which: BuiltIn,
    this: &Value,
    args: &[Value],
) -> Result<Value, Halt>
    ensures { Ends itself (λ calls. list_row calls which this.now args.now) state.old steps.old
        state.new steps.new result }
{
    match state.as_list(this) {
        Some(list) => {
            let length = state.length_of(list)?;
            row_on(state, steps, which, args, list, length)
        }
        None => Err(Halt::Fault(state.raise(Throw::WrongArgument))),
    }
}

// On an array of this length.
fn row_on(
    state: &mut State,
    steps: &mut u64,
    which: BuiltIn,
    args: &[Value],
    list: ObjId,
    length: u64,
) -> Result<Value, Halt>
    ensures { Ends itself (λ calls. list_row_on calls which args.now list length) state.old
        steps.old state.new steps.new result }
{
    match which {
        BuiltIn::ArrayPrototypeConcat => concat(state, steps, list, args),
        BuiltIn::ArrayPrototypeJoin => join(state, steps, list, length, args),
        BuiltIn::ArrayPrototypePop => at_once(pop(state, list, length)),
        BuiltIn::ArrayPrototypePush => at_once(push(state, list, length, args)),
        BuiltIn::ArrayPrototypeReverse => reverse(state, steps, list, length),
        BuiltIn::ArrayPrototypeShift => shift(state, steps, list, length),
        BuiltIn::ArrayPrototypeSlice => slice(state, steps, list, length, args),
        BuiltIn::ArrayPrototypeSplice => splice(state, steps, list, length, args),
        BuiltIn::ArrayPrototypeUnshift => unshift(state, steps, list, length, args),
        BuiltIn::ArrayPrototypeIndexOf => index_of(state, steps, list, length, args),
        BuiltIn::ArrayPrototypeLastIndexOf => last_index_of(state, steps, list, length, args),
        _ => Err(Halt::Fault(state.raise(Throw::WrongArgument))),
    }
}

// What is done without turns.
fn at_once(answer: Result<Value, Fault>) -> Result<Value, Halt>
    ensures { result ≡ lifted answer }
{
    match answer {
        Ok(value) => Ok(value),
        Err(fault) => Err(Halt::Fault(fault)),
    }
}

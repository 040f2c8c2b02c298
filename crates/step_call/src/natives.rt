//! Built-in functions that are called or constructed, by their families.

ghost use Rattle.std.specs.Prelude.{◌≡◌, ◌≢◌, IfOk, ℕ};
ghost use Rattle.page_meaning.specs.Act.{Act, Calls};
ghost use Rattle.page_meaning.specs.Rows.{list_row, row_family, row_of};
ghost use Rattle.page_meaning.specs.Store.{Store};
ghost use Rattle.page_frames.specs.declared.meter.Meter.{Meter as Metered};
ghost use Rattle.page_frames.specs.Step.{Leads};
ghost use Rattle.page_state.specs.Does.{itself};
ghost use Rattle.page_state.specs.Turns.{Ends};
ghost use Rattle.step_call.specs.Callees.{Descends};
ghost use Rattle.step_call.specs.HostFamilies.{host_family};

use crate::functions::run_function;
use event_dispatch::begin_row;
use js_core::OutOfMemory;
use js_values::{BuiltIn, Value};
use object_heap::Values;
use page_frames::{Meter, Next};
use page_meaning::{RowFamily, Signal};
use page_state::{Fault, Halt, State};
use step_parts::give;
use step_visit::begin_visit;

/// A built-in function runs: at once, by index turns, or by calls of its own, which are made one level of depth down.
pub(crate) fn run_native(
    state: &mut State,
    construct: bool,
    which: BuiltIn,
    this: &Value,
    args: &Values,
    meter: &mut Meter,
) -> Result<Next, OutOfMemory>
    requires { meter.old.depth ≢ 0 }
    ensures { IfOk result (λ n.
        Descends (λ calls. row_of calls construct which this.now args.now) state.old meter.old n
        state.new meter.new) }
{
    let values = args.as_slice();
    match family_of(which) {
        RowFamily::Object => give(builtin_object::row(state, construct, which, this, values)),
        RowFamily::Text => give(builtin_text::row(state, construct, which, this, values)),
        RowFamily::Function => run_function(state, which, this, values, meter),
        RowFamily::List => run_list(state, which, this, values, meter),
        RowFamily::Visit => begin_visit(state, which, this, values, meter),
        RowFamily::Node => give(dom_host::row(state, which, this, values)),
        RowFamily::Timer => give(timer_rows::row(state, which, values)),
        RowFamily::Dispatch => begin_row(state, this, values, meter),
    }
}

// A row of arrays takes the steps of its index turns.
fn run_list(
    state: &mut State,
    which: BuiltIn,
    this: &Value,
    values: &[Value],
    meter: &mut Meter,
) -> Result<Next, OutOfMemory>
    ensures { IfOk result (λ n.
        Descends (λ calls. list_row calls which this.now values.now) state.old meter.old n
        state.new meter.new) }
{
    let mut steps = meter.steps;
    let answer = builtin_list::row(state, &mut steps, which, this, values);
    meter.steps = steps;
    give_turned(answer)
}

// What is done at once, but for steps that it took, leads to its end.
fn give_turned(answer: Result<Value, Halt>) -> Result<Next, OutOfMemory>
    ensures { (act : Calls → Act) (calls : Calls) (s t : Store) (weight : ℕ) (m m1 : Metered) →
        m1.depth ≡ m.depth → Ends itself act s m.steps t m1.steps answer →
        IfOk result (λ n. Leads (act calls) weight s m n t m1) }
{
    match answer {
        Ok(value) => Ok(Next::Give(Signal::Value(value))),
        Err(Halt::Fault(Fault::Cause(value))) => Ok(Next::Give(Signal::Thrown(value))),
        Err(Halt::Fault(Fault::OutOfMemory)) => Err(OutOfMemory),
        Err(Halt::Stopped) => Ok(Next::Stopped),
    }
}

// The family of a built-in function.
fn family_of(which: BuiltIn) -> RowFamily
    ensures { result ≡ row_family which }
{
    match which {
        BuiltIn::FunctionPrototypeCall
        | BuiltIn::FunctionPrototypeApply
        | BuiltIn::FunctionPrototypeBind
        | BuiltIn::ArrayPrototypeToString => RowFamily::Function,
        BuiltIn::ArrayPrototypeConcat
        | BuiltIn::ArrayPrototypeJoin
        | BuiltIn::ArrayPrototypePop
        | BuiltIn::ArrayPrototypePush
        | BuiltIn::ArrayPrototypeReverse
        | BuiltIn::ArrayPrototypeShift
        | BuiltIn::ArrayPrototypeSlice
        | BuiltIn::ArrayPrototypeSplice
        | BuiltIn::ArrayPrototypeUnshift
        | BuiltIn::ArrayPrototypeIndexOf
        | BuiltIn::ArrayPrototypeLastIndexOf => RowFamily::List,
        BuiltIn::ArrayPrototypeEvery
        | BuiltIn::ArrayPrototypeSome
        | BuiltIn::ArrayPrototypeForEach
        | BuiltIn::ArrayPrototypeMap
        | BuiltIn::ArrayPrototypeFilter
        | BuiltIn::ArrayPrototypeReduce => RowFamily::Visit,
        BuiltIn::String
        | BuiltIn::StringFromCharCode
        | BuiltIn::StringPrototypeToString
        | BuiltIn::StringPrototypeValueOf
        | BuiltIn::StringPrototypeCharAt
        | BuiltIn::StringPrototypeCharCodeAt
        | BuiltIn::StringPrototypeConcat
        | BuiltIn::StringPrototypeIndexOf => RowFamily::Text,
        BuiltIn::StringPrototypeLastIndexOf
        | BuiltIn::StringPrototypeSlice
        | BuiltIn::StringPrototypeSplit
        | BuiltIn::StringPrototypeSubstring
        | BuiltIn::StringPrototypeToLowerCase
        | BuiltIn::StringPrototypeToUpperCase
        | BuiltIn::StringPrototypeTrim => RowFamily::Text,
        BuiltIn::IsNaN
        | BuiltIn::IsFinite
        | BuiltIn::ParseInt
        | BuiltIn::Number
        | BuiltIn::NumberPrototypeToString
        | BuiltIn::NumberPrototypeValueOf => RowFamily::Text,
        BuiltIn::MathAbs
        | BuiltIn::MathCeil
        | BuiltIn::MathFloor
        | BuiltIn::MathMax
        | BuiltIn::MathMin
        | BuiltIn::MathPow
        | BuiltIn::MathRound => RowFamily::Text,
        _ => host_family_of(which),
    }
}

// Those of nodes, events and timers; all others act on objects and values.
fn host_family_of(which: BuiltIn) -> RowFamily
    ensures { result ≡ host_family which }
{
    match which {
        BuiltIn::NodePrototypeInsertBefore
        | BuiltIn::NodePrototypeReplaceChild
        | BuiltIn::NodePrototypeRemoveChild
        | BuiltIn::NodePrototypeAppendChild
        | BuiltIn::NodePrototypeHasChildNodes
        | BuiltIn::NodePrototypeGetAttribute
        | BuiltIn::NodePrototypeSetAttribute
        | BuiltIn::NodePrototypeRemoveAttribute
        | BuiltIn::NodePrototypeHasAttribute
        | BuiltIn::NodePrototypeAddEventListener
        | BuiltIn::NodePrototypeRemoveEventListener => RowFamily::Node,
        BuiltIn::NodePrototypeGetElementById
        | BuiltIn::NodePrototypeCreateElement
        | BuiltIn::NodePrototypeCreateTextNode
        | BuiltIn::NodePrototypeCreateComment
        | BuiltIn::NodePrototypeCreateEvent
        | BuiltIn::EventPrototypeInitEvent
        | BuiltIn::EventPrototypeStopPropagation
        | BuiltIn::EventPrototypePreventDefault => RowFamily::Node,
        BuiltIn::NodePrototypeDispatchEvent => RowFamily::Dispatch,
        BuiltIn::SetTimeout
        | BuiltIn::SetInterval
        | BuiltIn::SetIntervalFrom
        | BuiltIn::ClearTimeout
        | BuiltIn::ClearInterval => RowFamily::Timer,
        _ => RowFamily::Object,
    }
}

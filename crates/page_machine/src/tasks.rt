//! Tasks: scripts, and calls of what a global name holds (ECMA-262 5.1 sections 10.4.1 and 14).

ghost use Rattle.std.specs.Prelude.{◌≡◌, ◌<◌, ◌^◌, [], IfOk, OnOk, is_some, true, ℕ};
ghost use Rattle.code_table.specs.Node.{body_of};
ghost use Rattle.js_values.specs.declared.value.Value.TheVariants.{Object, Undefined};
ghost use Rattle.page_meaning.specs.Calls.{calls_at};
ghost use Rattle.page_host.specs.Steps.{next_timer};
ghost use Rattle.page_meaning.specs.Places.{window};
ghost use Rattle.page_meaning.specs.Tasks as spec;
ghost use Rattle.page_meaning.specs.TimerRows as timers;
ghost use Rattle.page_state.specs.Does.{Gives, no_value};
ghost use Rattle.page_machine.specs.Ends.{outcome_of};
ghost use Rattle.page_machine.specs.Firing.{EndIsPut, Fired};
ghost use Rattle.page_machine.specs.Running.{declared, task_of, top_body};

use crate::machine::{End, run};
use code_table::FunctionCode;
use js_core::{DEPTH_LIMIT, OutOfMemory, STEP_LIMIT, Units};
use js_values::{LineKind, NodeId, ObjId, Value};
use object_heap::Values;
use page_frames::{Begin, BoxedCall, CallFrame, Meter, Spot};
use page_meaning::Signal;
use page_state::{Fault, State, WINDOW};
use step_call::call_end;
use step_parts::take_step;

// The clock goes no further.
const CLOCK_LIMIT: u64 = 1 << 59;

/// What is run as one.
#[derive(Drop)]
pub enum Task {
    /// A script, as a code of its own; its name and formals are not looked at.
    Script(FunctionCode),
    /// A call of what this global name holds.
    Name(Units),
    /// An event of the host at a node: its type, whether it bubbles, and whether it can be cancelled.
    Fires(Units, bool, bool, NodeId),
    /// So much time passes.
    Passes(u64),
}

/// Runs a task with all steps and all depth. An exception that it does not catch, and want of steps, are told by a line. After
/// want of memory nothing is said of the page.
pub fn run_task(state: &mut State, task: Task) -> Result<(), OutOfMemory>
    ensures { OnOk result (state.new ≡ spec.after_task (task_of task) state.old) }
{
    let mut meter = Meter {
        steps: STEP_LIMIT,
        depth: DEPTH_LIMIT as u32,
    };
    match task {
        Task::Script(code) => {
            let end = run_script(state, code, &mut meter)?;
            finish(state, end)
        }
        Task::Name(name) => {
            let end = call_name(state, &name, &mut meter)?;
            finish(state, end)
        }
        Task::Fires(kind, bubbles, cancelable, node) => {
            let end = fire(state, kind, bubbles, cancelable, node, &mut meter)?;
            finish(state, end)
        }
        Task::Passes(time) => {
            let end = pass(state, time, &mut meter)?;
            finish(state, end)
        }
    }
}

// Declares what a script declares, and runs it.
fn run_script(state: &mut State, code: FunctionCode, meter: &mut Meter) -> Result<End, OutOfMemory>
    ensures { IfOk result (λ end. outcome_of end state.new meter.new.steps
        ≡ (spec.run_script (calls_at meter.old.depth) (body_of code)).run state.old
        meter.old.steps) }
{
    match declare(state, &code) {
        Ok(()) => run_body(state, code, meter),
        Err(Fault::Cause(value)) => Ok(End::Ended(Signal::Thrown(value))),
        Err(Fault::OutOfMemory) => Err(OutOfMemory),
    }
}

// The functions that a script declares, and then its variables (section 10.5).
fn declare(state: &mut State, code: &FunctionCode) -> Result<(), Fault>
    ensures { Gives no_value (λ _. declared (body_of code.now)) state.old state.new result }
{
    state.declare_globals(code)?;
    state.global_variables(code)
}

// Runs the statements of a script at the top of the page (section 10.4.1).
fn run_body(state: &mut State, code: FunctionCode, meter: &mut Meter) -> Result<End, OutOfMemory>
    ensures { IfOk result (λ end. outcome_of end state.new meter.new.steps
        ≡ (top_body (calls_at meter.old.depth) (body_of code)).run state.old meter.old.steps) }
{
    let spot = Spot::body(state.alloc(), code, None, Value::Object(WINDOW))?;
    match run(state, Begin::Node(spot), meter)? {
        End::Ended(signal) => Ok(End::Ended(call_end(signal))),
        End::Stopped => Ok(End::Stopped),
    }
}

// Calls what a global name holds, without arguments.
fn call_name(state: &mut State, name: &Units, meter: &mut Meter) -> Result<End, OutOfMemory>
    ensures { IfOk result (λ end. outcome_of end state.new meter.new.steps
        ≡ (spec.task_of (calls_at meter.old.depth) (spec.Name name.now)).run state.old
        meter.old.steps) }
{
    match state.read_name(None, name) {
        Ok(callee) => call(state, callee, meter),
        Err(Fault::Cause(value)) => Ok(End::Ended(Signal::Thrown(value))),
        Err(Fault::OutOfMemory) => Err(OutOfMemory),
    }
}

// An event of the host is made, and dispatched at the node.
fn fire(
    state: &mut State,
    kind: Units,
    bubbles: bool,
    cancelable: bool,
    node: NodeId,
    meter: &mut Meter,
) -> Result<End, OutOfMemory>
    ensures { IfOk result (λ end. outcome_of end state.new meter.new.steps
        ≡ (spec.task_of (calls_at meter.old.depth) (spec.Fires kind bubbles cancelable node)).run
        state.old meter.old.steps) }
{
    let event = state.make_event()?;
    state.init_event(event, kind, bubbles, cancelable)?;
    run(state, Begin::Deliver(event, node), meter)
}

// So much time passes. Past 2 ^ 59 it wants memory.
fn pass(state: &mut State, time: u64, meter: &mut Meter) -> Result<End, OutOfMemory>
    ensures { IfOk result (λ end. outcome_of end state.new meter.new.steps
        ≡ (spec.task_of (calls_at meter.old.depth) (spec.Passes time)).run state.old
        meter.old.steps) }
{
    let clock = state.host().clock();
    if time > CLOCK_LIMIT || clock > CLOCK_LIMIT - time {
        return Err(OutOfMemory);
    }
    pass_to(state, clock + time, meter)
}

// Timers fire one after another up to a moment, and last the clock is there.
fn pass_to(state: &mut State, moment: u64, meter: &mut Meter) -> Result<End, OutOfMemory>
    requires { moment < 2 ^ 60 }
    ensures { IfOk result (λ end. outcome_of end state.new meter.new.steps
        ≡ (timers.pass_to (calls_at meter.old.depth) moment).run state.old meter.old.steps) }
{
    'firings: while state.is_timer_due(moment) {
        if !fire_next(state, moment, meter)? {
            return Ok(End::Stopped);
        }
    }
    state.set_clock(moment);
    Ok(End::Ended(Signal::Value(Value::Undefined)))
}

// The timer that is due first comes due, once its step is taken; what its function throws is put out. `false` where all stops.
fn fire_next(state: &mut State, moment: u64, meter: &mut Meter) -> Result<bool, OutOfMemory>
    requires moment { moment < 2 ^ 60 }
    requires due { is_some (next_timer state.old.host moment) ≡ true }
    ensures { IfOk result (λ on. Fired moment state.old meter.old on state.new meter.new) }
{
    if meter.steps == 0 {
        return Ok(false);
    }
    take_step(meter);
    match state.fire_timer(moment) {
        Some(function) => {
            let end = call_timer(state, function, meter)?;
            put_end(state, end)
        }
        None => unreachable!(),
    }
}

// The function of a timer is called; the levels of depth stay.
fn call_timer(state: &mut State, function: ObjId, meter: &mut Meter) -> Result<End, OutOfMemory>
    ensures same { IfOk result (λ end. outcome_of end state.new meter.new.steps
        ≡ ((calls_at meter.old.depth).call (Object function) (Object window) []).run state.old
        meter.old.steps) }
    ensures depth { OnOk result (meter.new.depth ≡ meter.old.depth) }
{
    let mut own = *meter;
    let end = call_with(
        state,
        Value::Object(function),
        Value::Object(WINDOW),
        &mut own,
    )?;
    meter.steps = own.steps;
    Ok(end)
}

// What ended goes on, once what it threw is put out.
fn put_end(state: &mut State, end: End) -> Result<bool, OutOfMemory>
    ensures { IfOk result (λ on. EndIsPut end state.old on state.new) }
{
    match end {
        End::Ended(signal) => {
            state.put_uncaught(&signal)?;
            Ok(true)
        }
        End::Stopped => Ok(false),
    }
}

// Calls a value without arguments, with `this` undefined.
fn call(state: &mut State, callee: Value, meter: &mut Meter) -> Result<End, OutOfMemory>
    ensures { IfOk result (λ end. outcome_of end state.new meter.new.steps
        ≡ ((calls_at meter.old.depth).call callee Undefined []).run state.old meter.old.steps) }
{
    call_with(state, callee, Value::Undefined, meter)
}

// Calls a value without arguments, with this `this`.
fn call_with(
    state: &mut State,
    callee: Value,
    this: Value,
    meter: &mut Meter,
) -> Result<End, OutOfMemory>
    ensures { IfOk result (λ end. outcome_of end state.new meter.new.steps
        ≡ ((calls_at meter.old.depth).call callee this []).run state.old meter.old.steps) }
{
    let frame = CallFrame {
        construct: false,
        callee,
        this,
        args: Values::new(state.alloc()),
    };
    let boxed = BoxedCall::of(state.alloc(), frame)?;
    run(state, Begin::Call(boxed), meter)
}

// No event is under dispatch any more, and a line tells an exception and want of steps.
fn finish(state: &mut State, end: End) -> Result<(), OutOfMemory>
    ensures { OnOk result ((n : ℕ) → state.new ≡ spec.finished (outcome_of end state.old n)) }
{
    match end {
        End::Ended(Signal::Thrown(value)) => {
            let text = state.uncaught_text(&value)?;
            state.settle_events();
            state.put_line(LineKind::Uncaught, text)
        }
        End::Ended(_) => {
            state.settle_events();
            Ok(())
        }
        End::Stopped => {
            state.settle_events();
            state.put_line(LineKind::Stopped, Units::of(state.alloc(), &[])?)
        }
    }
}

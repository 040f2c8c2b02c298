//! `switch` (ECMA-262 5.1 section 12.11). A `default` that is passed over is found again once no test was the same.

ghost use Rattle.std.specs.Prelude.{◌≡◌, ◌+◌, ◌*◌, ◌<◌, ◌≤◌, IfOk, IfSome, ℕ, suc, true, false};
ghost use Rattle.code_table.specs.Kind.{kind_of};
ghost use Rattle.page_meaning.specs.Act.{Calls};
ghost use Rattle.page_meaning.specs.Calls.{calls_at};
ghost use Rattle.page_meaning.specs.Names.{Here};
ghost use Rattle.page_meaning.specs.Store.{Store};
ghost use Rattle.page_frames.specs.RestLoops as spec;
ghost use Rattle.page_frames.specs.Step.{Leads, Steps};
ghost use Rattle.page_frames.specs.Weight.{weigh, weigh_case};
ghost use Rattle.page_frames.specs.Where.{here_of, spot_node};
ghost use Rattle.step_stmt.specs.Cases as cases;

use crate::ends::{nothing, unbroken};
use code_table::Kind;
use js_core::OutOfMemory;
use js_values::Value;
use page_frames::{Begin, BoxedFrame, CaseFrame, Frame, Meter, Next, Spot};
use page_meaning::Signal;
use page_state::State;
use std::alloc::Global;
use step_parts::plain;
use whole_ops::same;

// The number of the test of the case of this index, and of its statements.
fn test_place(index: u64) -> u64
    requires { 2 * index + 2 < 18446744073709551616 }
    ensures { result ≡ spec.test_place index }
{
    2 * index + 1
}

fn body_place(index: u64) -> u64
    requires { 2 * index + 2 < 18446744073709551616 }
    ensures { result ≡ spec.body_place index }
{
    2 * index + 2
}

// How many cases there are.
fn case_count(spot: &Spot) -> u64
    requires { kind_of (spot_node spot.now) ≡ Kind.Switch }
    ensures count { result ≡ cases.case_count (spot_node spot.now) }
    ensures fits { 2 * result < 18446744073709551616 }
{
    spot.part_count() as u64 / 2
}

// The default, which has no test.
fn default_index(spot: &Spot, count: u64) -> Option<u64>
    requires kind { kind_of (spot_node spot.now) ≡ Kind.Switch }
    requires count { count ≡ cases.case_count (spot_node spot.now) }
    requires fits { 2 * count < 18446744073709551616 }
    ensures same { (calls : Calls) (here : Here) →
        cases.default_of calls here (spot_node spot.now) count ≡ cases.default_at calls here
        (spot_node spot.now) result }
    ensures within { IfSome result (λ i. i < count) }
{
    let mut index = count;
    while index > 0 {
        index -= 1;
        if !spot.has_part(test_place(index)) {
            return Some(index);
        }
    }
    None
}

// The next case that has a test, from this index on.
fn next_test(spot: &Spot, from: u64, count: u64) -> Option<u64>
    requires kind { kind_of (spot_node spot.now) ≡ Kind.Switch }
    requires count { count ≡ cases.case_count (spot_node spot.now) }
    requires fits { 2 * count < 18446744073709551616 }
    requires from { from ≤ count }
    ensures { cases.NextTest (spot_node spot.now) from result }
{
    let mut index = from;
    while index < count {
        if spot.has_part(test_place(index)) {
            return Some(index);
        }
        index += 1;
    }
    None
}

// The test of the case of this index runs.
fn run_test(
    state: &State,
    spot: Spot,
    value: Value,
    index: u64,
    meter: &Meter,
) -> Result<Next, OutOfMemory>
    requires { 2 * index + 2 < 18446744073709551616 }
    ensures { IfOk result (λ n. cases.Tests spot value index state.now meter.now n) }
{
    let number = spot.part(test_place(index));
    match plain(state, &spot, number)? {
        Some(tested) => {
            let frame = Frame::Case(CaseFrame {
                spot,
                value,
                index,
                testing: true,
            });
            let boxed = BoxedFrame::of(state.alloc(), frame)?;
            Ok(Next::Go(boxed, Signal::Value(tested)))
        }
        None => {
            let test = spot.at(number)?;
            let frame = Frame::Case(CaseFrame {
                spot,
                value,
                index,
                testing: true,
            });
            let boxed = BoxedFrame::of(state.alloc(), frame)?;
            Ok(Next::Then(boxed, Begin::Node(test)))
        }
    }
}

// The statements of the cases from this index on.
fn through(
    alloc: Global,
    spot: Spot,
    value: Value,
    index: u64,
    meter: &Meter,
) -> Result<Next, OutOfMemory>
    requires { kind_of (spot_node spot) ≡ Kind.Switch }
    ensures { (w : Store) → IfOk result (λ n. cases.GoesThrough spot index w meter.now n) }
{
    if index >= case_count(&spot) {
        return Ok(nothing());
    }
    let body = spot.at(spot.part(body_place(index)))?;
    let frame = Frame::Case(CaseFrame {
        spot,
        value,
        index,
        testing: false,
    });
    let boxed = BoxedFrame::of(alloc, frame)?;
    Ok(Next::Then(boxed, Begin::Node(body)))
}

// What runs where no test was the same: the statements from the default on, if there is one.
fn run_default(alloc: Global, spot: Spot, value: Value, meter: &Meter) -> Result<Next, OutOfMemory>
    requires { kind_of (spot_node spot) ≡ Kind.Switch }
    ensures { (w : Store) (i : ℕ) → IfOk result (λ n. cases.Defaults spot i w meter.now n) }
{
    let count = case_count(&spot);
    match default_index(&spot, count) {
        Some(index) => through(alloc, spot, value, index, meter),
        None => Ok(nothing()),
    }
}

// The tests from the case of this index on.
fn tests_from(
    state: &State,
    spot: Spot,
    value: Value,
    index: u64,
    meter: &Meter,
) -> Result<Next, OutOfMemory>
    requires kind { kind_of (spot_node spot) ≡ Kind.Switch }
    requires index { index ≤ cases.case_count (spot_node spot) }
    ensures { IfOk result (λ n.
        Leads (spec.till_break (spec.cases_from (calls_at meter.now.depth) (here_of spot)
        (spot_node spot) value index))
        (cases.weigh_tests (spot_node spot) index) state.now meter.now n state.now meter.now) }
{
    let count = case_count(&spot);
    match next_test(&spot, index, count) {
        Some(tested) => run_test(state, spot, value, tested, meter),
        None => run_default(state.alloc(), spot, value, meter),
    }
}

/// A `switch` of this value: its tests in turn.
pub(crate) fn switch_valued(
    state: &State,
    spot: Spot,
    value: Value,
    meter: &Meter,
) -> Result<Next, OutOfMemory>
    requires { kind_of (spot_node spot) ≡ Kind.Switch }
    ensures { IfOk result (λ n.
        Leads (spec.rest_switch (calls_at meter.now.depth) (here_of spot) (spot_node spot) value)
        (weigh (spot_node spot) 1) state.now meter.now n state.now meter.now) }
{
    tests_from(state, spot, value, 0, meter)
}

// The tests after that of the case of this index.
fn tests_after(
    state: &State,
    spot: Spot,
    value: Value,
    index: u64,
    meter: &Meter,
) -> Result<Next, OutOfMemory>
    requires { kind_of (spot_node spot) ≡ Kind.Switch }
    ensures { IfOk result (λ n.
        Leads (spec.till_break (spec.cases_from (calls_at meter.now.depth) (here_of spot)
        (spot_node spot) value (suc index)))
        (weigh_case (spot_node spot) index true) state.now meter.now n state.now meter.now) }
{
    let count = case_count(&spot);
    if index < count {
        tests_from(state, spot, value, index + 1, meter)
    } else {
        tests_from(state, spot, value, count, meter)
    }
}

// The test of the case of this index has this value: its statements run where the values are the same.
fn test_ended(
    state: &State,
    spot: Spot,
    value: Value,
    index: u64,
    tested: &Value,
    meter: &Meter,
) -> Result<Next, OutOfMemory>
    requires { kind_of (spot_node spot) ≡ Kind.Switch }
    ensures { IfOk result (λ n.
        Leads (spec.till_break (spec.rest_test (calls_at meter.now.depth) (here_of spot)
        (spot_node spot) value index tested.now))
        (weigh_case (spot_node spot) index true) state.now meter.now n state.now meter.now) }
{
    if same(&value, tested) {
        through(state.alloc(), spot, value, index, meter)
    } else {
        tests_after(state, spot, value, index, meter)
    }
}

// The statements of the case of this index have ended: those of the next one run.
fn body_ended(
    alloc: Global,
    spot: Spot,
    value: Value,
    index: u64,
    meter: &Meter,
) -> Result<Next, OutOfMemory>
    requires { kind_of (spot_node spot) ≡ Kind.Switch }
    ensures { (w : Store) →
        IfOk result (λ n.
        Leads (spec.till_break (spec.through_from (calls_at meter.now.depth) (here_of spot)
        (spot_node spot) (suc index)))
        (weigh_case (spot_node spot) index false) w meter.now n w meter.now) }
{
    if index < case_count(&spot) {
        through(alloc, spot, value, index + 1, meter)
    } else {
        Ok(nothing())
    }
}

/// A `switch` goes on from the end of a test, or of the statements of a case (section 12.11).
pub fn go_case(
    state: &mut State,
    frame: CaseFrame,
    end: Signal,
    meter: &mut Meter,
) -> Result<Next, OutOfMemory>
    ensures { IfOk result (λ n.
        Steps (Frame.Case frame) end state.old meter.old n state.new meter.new) }
{
    match end {
        Signal::Value(value) => case_ended(state, frame, &value, meter),
        other => Ok(Next::Give(unbroken(other))),
    }
}

// A test has this value, or the statements of a case have ended by themselves.
fn case_ended(
    state: &State,
    frame: CaseFrame,
    tested: &Value,
    meter: &Meter,
) -> Result<Next, OutOfMemory>
    ensures { IfOk result (λ n.
        Leads (spec.rest_case (calls_at meter.now.depth) (here_of frame.spot) (spot_node frame.spot)
        frame.value frame.index frame.testing (Signal.Value tested.now))
        (weigh_case (spot_node frame.spot) frame.index frame.testing) state.now meter.now n
        state.now meter.now) }
{
    let CaseFrame {
        spot,
        value,
        index,
        testing,
    } = frame;
    match spot.kind() {
        Kind::Switch => {
            if testing {
                test_ended(state, spot, value, index, tested, meter)
            } else {
                body_ended(state.alloc(), spot, value, index, meter)
            }
        }
        _ => Ok(nothing()),
    }
}

//! Object literals (ECMA-262 5.1 section 11.1.5).

ghost use Rattle.std.specs.Prelude.{◌≡◌, IfOk, List, Some, slice_get, ℕ};
ghost use Rattle.std.specs.Option.{option_copied};
ghost use Rattle.code_table.specs.Kind.{kind_of};
ghost use Rattle.page_meaning.specs.Calls.{calls_at};
ghost use Rattle.page_frames.specs.RestLiterals.{fields_from as spec_fields, name_at as spec_name};
ghost use Rattle.page_frames.specs.Step.{Leads, Moves, Opens};
ghost use Rattle.page_frames.specs.Weight.{weigh};
ghost use Rattle.page_frames.specs.Where.{here_of, spot_node};
ghost use Rattle.step_expr.specs.Holding.{holder as spec_holder};

use crate::held::{after, holder, holding};
use code_table::{Kind, Names};
use js_core::{OutOfMemory, Units};
use js_values::{ObjId, Value};
use object_heap::Values;
use page_frames::{Meter, Next, Spot};
use page_meaning::Signal;
use page_state::State;
use std::alloc::Global;
use step_parts::{give, run_part};

/// An object literal begins: the object is made before its fields.
pub(crate) fn begin_literal(
    state: &mut State,
    spot: Spot,
    meter: &Meter,
) -> Result<Next, OutOfMemory>
    ensures { (names : List (List ℕ)) → kind_of (spot_node spot) ≡ Kind.Literal names →
        IfOk result (λ n. Opens spot state.old meter.now n state.new meter.now) }
{
    let object = state.new_plain()?;
    let got = holding(state.alloc(), object)?;
    fields_from(state, spot, 0, got, object, meter)
}

/// An object literal goes on with the value of a field.
pub(crate) fn go_literal(
    state: &mut State,
    spot: Spot,
    turn: u64,
    got: Values,
    value: Value,
    meter: &Meter,
) -> Result<Next, OutOfMemory>
    ensures { (names : List (List ℕ)) → kind_of (spot_node spot) ≡ Kind.Literal names
        → IfOk result (λ n. Moves spot (Kind.Literal names) turn got value state.old meter.now n
        state.new) }
{
    let Some(object) = holder(&got) else {
        return Ok(Next::Give(Signal::Value(Value::Undefined)));
    };
    let next = after(turn)?;
    let name = name_in(state.alloc(), &spot, turn)?;
    match state.define_member(object, &name, value) {
        Ok(_) => fields_from(state, spot, next, got, object, meter),
        Err(fault) => give(Err(fault)),
    }
}

// The fields from the kth on: it runs, or the object is the value.
fn fields_from(
    state: &State,
    spot: Spot,
    k: u64,
    got: Values,
    object: ObjId,
    meter: &Meter,
) -> Result<Next, OutOfMemory>
    requires { spec_holder got ≡ Some object }
    ensures { (names : List (List ℕ)) → kind_of (spot_node spot) ≡ Kind.Literal names
        → IfOk result (λ n. Leads (spec_fields (calls_at meter.now.depth) (here_of spot)
        (spot_node spot) object k) (weigh (spot_node spot) k) state.now meter.now n state.now
        meter.now) }
{
    if spot.has_part(k) {
        run_part(state, spot, k, got, k, meter)
    } else {
        Ok(Next::Give(Signal::Value(Value::Object(object))))
    }
}

// The kth name of an object literal, or no units past the last.
fn name_in(alloc: Global, spot: &Spot, k: u64) -> Result<Units, OutOfMemory>
    ensures { (names : List (List ℕ)) → kind_of (spot_node spot.now) ≡ Kind.Literal names →
        IfOk result (λ x. x ≡ spec_name names k) }
{
    match spot.kind() {
        Kind::Literal(names) => name_at(alloc, names, k),
        _ => Units::of(alloc, &[]),
    }
}

fn name_at(alloc: Global, names: &Names, k: u64) -> Result<Units, OutOfMemory>
    ensures { IfOk result (λ x. x ≡ spec_name names.now k) }
{
    match known_name(names.as_slice(), k) {
        Some(name) => name.clone(),
        None => Units::of(alloc, &[]),
    }
}

// The kth name, or `None` exactly past the last.
fn known_name(names: &[Units], k: u64) -> Option<&Units>
    ensures { option_copied result ≡ slice_get names.now k }
{
    match names.get(k as usize) {
        Some(name) => Some(name),
        None => None,
    }
}

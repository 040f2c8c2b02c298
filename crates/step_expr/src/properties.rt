//! Properties that are read or deleted (ECMA-262 5.1 sections 11.2.1 and 11.4.1).

ghost use Rattle.std.specs.Prelude.{◌≡◌, IfOk};
ghost use Rattle.code_table.specs.Kind.{kind_of};
ghost use Rattle.page_meaning.specs.Properties as properties;
ghost use Rattle.page_frames.specs.RestProperties as rest;
ghost use Rattle.page_frames.specs.Step.{Moves};
ghost use Rattle.page_frames.specs.Where.{spot_node};
ghost use Rattle.page_state.specs.Does.{Gives, itself};
ghost use Rattle.step_parts.specs.declared.family.Family.TheVariants.{Property};
ghost use Rattle.step_parts.specs.Families.{family_of};

use crate::sides::run_right;
use code_table::Kind;
use js_core::{OutOfMemory, Units};
use js_values::Value;
use object_heap::Values;
use page_frames::{Meter, Next, Spot};
use page_state::{Fault, State};
use step_parts::give;

/// A property that is read or deleted goes on with the value of its base or of its key (sections 11.2.1 and 11.4.1).
pub fn go_property(
    state: &mut State,
    spot: Spot,
    turn: u64,
    got: Values,
    value: Value,
    meter: &Meter,
) -> Result<Next, OutOfMemory>
    requires { family_of (kind_of (spot_node spot)) ≡ Property }
    ensures { IfOk result (λ n.
        Moves spot (kind_of (spot_node spot)) turn got value state.old meter.now n state.new) }
{
    match spot.kind() {
        Kind::Member(name) => give(state.get_member(&value, name)),
        Kind::Index => go_index(state, spot, got, value, meter),
        Kind::DeleteMember(name) => give(delete_named(state, &value, name)),
        Kind::DeleteIndex => go_delete_index(state, spot, got, value, meter),
        _ => unreachable!(),
    }
}

// `base[key]` after its base or its key.
fn go_index(
    state: &mut State,
    spot: Spot,
    got: Values,
    value: Value,
    meter: &Meter,
) -> Result<Next, OutOfMemory>
    requires { kind_of (spot_node spot) ≡ Kind.Index }
    ensures { IfOk result (λ n. Moves spot Kind.Index 0 got value state.old meter.now n state.new) }
{
    match got.as_slice().first() {
        None => run_right(state, spot, value, meter),
        Some(base) => give(state.get_index(base, &value)),
    }
}

// `delete base[key]` after its base or its key.
fn go_delete_index(
    state: &mut State,
    spot: Spot,
    got: Values,
    value: Value,
    meter: &Meter,
) -> Result<Next, OutOfMemory>
    requires { kind_of (spot_node spot) ≡ Kind.DeleteIndex }
    ensures { IfOk result (λ n.
        Moves spot Kind.DeleteIndex 0 got value state.old meter.now n state.new) }
{
    match got.as_slice().first() {
        None => run_right(state, spot, value, meter),
        Some(base) => give(delete_index(state, base, &value)),
    }
}

// `delete base.name`: first the base is tested.
fn delete_named(state: &mut State, base: &Value, name: &Units) -> Result<Value, Fault>
    ensures { Gives itself (λ _.
        rest.rest_delete_member name.now base.now) state.old state.new result }
{
    let object = state.with_properties(base)?;
    delete(state, &object, name)
}

// `delete base[key]`, both of which are known.
fn delete_index(state: &mut State, base: &Value, key: &Value) -> Result<Value, Fault>
    ensures { Gives itself (λ calls.
        rest.delete_index calls base.now key.now) state.old state.new result }
{
    let name = state.key_of(base, key)?;
    delete(state, base, &name)
}

// The property is deleted.
fn delete(state: &mut State, base: &Value, name: &Units) -> Result<Value, Fault>
    ensures { Gives itself (λ _.
        properties.delete_member base.now name.now) state.old state.new result }
{
    Ok(Value::Bool(state.delete_member(base, name)?))
}

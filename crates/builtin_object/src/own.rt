//! The own properties of an object (ECMA-262 5.1 sections 15.2.3.4, 15.2.3.7, 15.2.3.11, 15.2.3.12 and 15.2.3.14).

ghost use Rattle.std.specs.Prelude.{◌≡◌, ◌++◌, IfOk, OnOk, slice_get};
ghost use Rattle.std.specs.List.{list_all};
ghost use Rattle.std.specs.Result.{result_map_both};
ghost use Rattle.page_meaning.specs.ObjectRows as spec;
ghost use Rattle.page_meaning.specs.Descriptors.{change_in as spec_change};
ghost use Rattle.page_meaning.specs.Properties.{get_at};
ghost use Rattle.builtin_object.specs.Own.{enumerable_name, fast_or_none, is_fast as spec_fast};

use crate::descriptors::change_in;
use js_core::{OutOfMemory, Units};
use js_values::{ObjId, Throw};
use object_heap::{Change, Prop};
use page_state::State;

/// The names of the own properties that are enumerable, in the order of creation.
pub fn enumerable_names(state: &State, at: ObjId) -> Result<Vec<Units>, OutOfMemory>
    ensures { IfOk result (λ names. names.items
        ≡ spec.enumerable_names (spec.props_at state.now at)) }
{
    let keys = state.own_keys(at)?;
    let mut names = Vec::new(state.alloc());
    for place in 0..keys.len() {
        push_enumerable(state, at, place as u64, &mut names)?;
    }
    Ok(names)
}

// The name of the own property at a place, where it is enumerable.
fn push_enumerable(
    state: &State,
    at: ObjId,
    place: u64,
    names: &mut Vec<Units>,
) -> Result<(), OutOfMemory>
    ensures { OnOk result (names.new.items ≡ names.old.items
        ++ enumerable_name (slice_get (spec.props_at state.now at) place)) }
{
    match state.own_at(at, place) {
        Some((name, prop)) if prop.enumerable => {
            names.push(name.clone()?)?;
            Ok(())
        }
        _ => Ok(()),
    }
}

/// Whether all own properties are sealed, or frozen.
pub fn are_fast(state: &State, at: ObjId, frozen: bool) -> Result<bool, OutOfMemory>
    ensures { IfOk result (λ b. b ≡ list_all (λ e. spec_fast frozen e.1)
        (spec.props_at state.now at)) }
{
    let keys = state.own_keys(at)?;
    for place in 0..keys.len() {
        if !is_fast_at(state, at, place as u64, frozen) {
            return Ok(false);
        }
    }
    Ok(true)
}

fn is_fast_at(state: &State, at: ObjId, place: u64, frozen: bool) -> bool
    ensures { result ≡ fast_or_none frozen (slice_get (spec.props_at state.now at) place) }
{
    match state.own_at(at, place) {
        Some((_, prop)) => is_fast(prop, frozen),
        None => true,
    }
}

fn is_fast(prop: &Prop, frozen: bool) -> bool
    ensures { result ≡ spec_fast frozen prop.now }
{
    !prop.configurable && !(frozen && prop.writable)
}

/// What the enumerable properties of an object ask for as descriptors, or why the first that is none is none.
pub fn all_changes(
    state: &State,
    from: ObjId,
) -> Result<Result<Vec<(Units, Change)>, Throw>, OutOfMemory>
    ensures { IfOk result (λ changes. result_map_both (λ c. c.items) (λ t. t) changes
        ≡ spec.all_changes state.now from) }
{
    let names = enumerable_names(state, from)?;
    changes_in(state, from, names.as_slice())
}

fn changes_in(
    state: &State,
    from: ObjId,
    names: &[Units],
) -> Result<Result<Vec<(Units, Change)>, Throw>, OutOfMemory>
    ensures { IfOk result (λ changes. result_map_both (λ c. c.items) (λ t. t) changes
        ≡ spec.changes_in state.now from names.now) }
{
    let mut changes = Vec::new(state.alloc());
    for name in names {
        match change_named(state, from, name)? {
            Ok(change) => changes.push((name.clone()?, change))?,
            Err(what) => return Ok(Err(what)),
        }
    }
    Ok(Ok(changes))
}

// What a property of an object asks for as a descriptor.
fn change_named(
    state: &State,
    from: ObjId,
    name: &Units,
) -> Result<Result<Change, Throw>, OutOfMemory>
    ensures { IfOk result (λ change. change ≡ spec_change state.now
        (get_at state.now from name.now)) }
{
    match state.get(from, name) {
        Some(value) => change_in(state, value),
        None => Ok(Err(Throw::WrongArgument)),
    }
}

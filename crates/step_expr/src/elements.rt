//! Array literals (ECMA-262 5.1 section 11.1.4).

ghost use Rattle.std.specs.Prelude.{◌≡◌, ◌⊎◌, ◌≤◌, IfOk, IfSome, Some, is_some, pos, true};
ghost use Rattle.std.specs.Fmt.{decimal};
ghost use Rattle.code_table.specs.Kind.{kind_of};
ghost use Rattle.code_table.specs.Node.{and_child, part_count};
ghost use Rattle.js_values.specs.declared.value.Value.TheVariants.{Object};
ghost use Rattle.object_heap.specs.Define.{length_name, number};
ghost use Rattle.page_meaning.specs.Act.{also, give as spec_give};
ghost use Rattle.page_meaning.specs.Calls.{calls_at};
ghost use Rattle.page_meaning.specs.Properties.{define_member, put_in};
ghost use Rattle.page_frames.specs.RestLiterals.{elements_from as spec_elements};
ghost use Rattle.page_frames.specs.Step.{Leads, Moves, Opens};
ghost use Rattle.page_frames.specs.Weight.{weigh};
ghost use Rattle.page_frames.specs.Where.{here_of, spot_node};
ghost use Rattle.page_state.specs.Does.{Gives, itself};
ghost use Rattle.step_expr.specs.Holding.{Skips, holder as spec_holder};

use crate::held::{after, holder, holding};
use code_table::Kind;
use js_core::{OutOfMemory, Whole, ascii_text};
use js_values::{ObjId, Value};
use object_heap::{Values, index_name};
use page_frames::{Meter, Next, Spot};
use page_meaning::Signal;
use page_state::{Fault, State};
use step_parts::{give, run_part};

/// An array literal begins: the array is made before its elements.
pub(crate) fn begin_list(state: &mut State, spot: Spot, meter: &Meter) -> Result<Next, OutOfMemory>
    requires { kind_of (spot_node spot) ≡ Kind.List }
    ensures { IfOk result (λ n. Opens spot state.old meter.now n state.new meter.now) }
{
    let list = state.new_list()?;
    let got = holding(state.alloc(), list)?;
    elements_from(state, spot, 0, got, list, meter)
}

/// An array literal goes on with the value of an element.
pub(crate) fn go_list(
    state: &mut State,
    spot: Spot,
    turn: u64,
    got: Values,
    value: Value,
    meter: &Meter,
) -> Result<Next, OutOfMemory>
    requires { kind_of (spot_node spot) ≡ Kind.List }
    ensures { IfOk result (λ n.
        Moves spot Kind.List turn got value state.old meter.now n state.new) }
{
    let Some(list) = holder(&got) else {
        return Ok(Next::Give(Signal::Value(Value::Undefined)));
    };
    let next = after(turn)?;
    match define_element(state, list, turn, value) {
        Ok(_) => elements_from(state, spot, next, got, list, meter),
        Err(fault) => give(Err(fault)),
    }
}

// The value becomes the element of this index.
fn define_element(state: &mut State, list: ObjId, index: u64, value: Value) -> Result<Value, Fault>
    ensures { Gives itself (λ _.
        define_member list (decimal index) value) state.old state.new result }
{
    let name = index_name(state.alloc(), index)?;
    state.define_member(list, &name, value)
}

// The elements from the kth on: the first that is there runs, or the array's length is put.
fn elements_from(
    state: &mut State,
    spot: Spot,
    k: u64,
    got: Values,
    list: ObjId,
    meter: &Meter,
) -> Result<Next, OutOfMemory>
    requires kind { kind_of (spot_node spot) ≡ Kind.List }
    requires held { spec_holder got ≡ Some list }
    ensures { IfOk result (λ n.
        Leads (spec_elements (calls_at meter.now.depth) (here_of spot) (spot_node spot) list k)
        (weigh (spot_node spot) k) state.old meter.now n state.new meter.now) }
{
    let next = next_element(&spot, k);
    if spot.has_part(next) {
        run_part(state, spot, next, got, next, meter)
    } else {
        give(close_list(state, list, next))
    }
}

// The number of the first element from the kth on that is there, or where there is none the number of elements.
fn next_element(spot: &Spot, k: u64) -> u64
    requires { kind_of (spot_node spot.now) ≡ Kind.List }
    ensures skipped { Skips (spot_node spot.now) k result }
    ensures found { (is_some (and_child (spot_node spot.now) result) ≡ true) ⊎
        (part_count (spot_node spot.now) ≤ result) }
{
    let count = spot.part_count() as u64;
    let mut next = k;
    while next < count {
        if spot.has_part(next) {
            return next;
        }
        next += 1;
    }
    next
}

// The array gets its length, and is the value.
fn close_list(state: &mut State, list: ObjId, length: u64) -> Result<Value, Fault>
    ensures { Gives itself (λ _. also (put_in list length_name (number length)) (λ _.
        spec_give (Object list))) state.old state.new result }
{
    let name = ascii_text(state.alloc(), b"length")?;
    let Some(whole) = whole_of(length) else {
        return Err(Fault::OutOfMemory);
    };
    let _put = state.put_in(list, &name, Value::Num(whole))?;
    Ok(Value::Object(list))
}

// The number, where it is in range.
fn whole_of(length: u64) -> Option<Whole>
    ensures { IfSome result (λ n. n ≡ Some (pos length)) }
{
    if length <= Whole::LARGEST as u64 {
        Whole::new(length as i64)
    } else {
        None
    }
}

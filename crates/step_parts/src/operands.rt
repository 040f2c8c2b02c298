//! Operands that are read at once.

ghost use Rattle.std.specs.Prelude.{◌≡◌, IfOk, IfSome};
ghost use Rattle.page_meaning.specs.declared.signal.Signal.TheVariants.{Value as Val};
ghost use Rattle.page_meaning.specs.Properties.{get_index, get_member};
ghost use Rattle.page_frames.specs.Where.{numbered, spot_node};
ghost use Rattle.page_state.specs.Does.{Does};
ghost use Rattle.step_parts.specs.Operands.{Operand, Reads};

use crate::operators::operated;
use code_table::Kind;
use js_core::{OutOfMemory, Units};
use js_values::Value;
use page_frames::Spot;
use page_state::{State, text_of};

/// How deep the operands of operands are read at once, so that they take so many levels of the host's stack at most.
const NESTING: u8 = 6;

/// The value of a node that needs no frame: a name that means something, a literal, `this`, and an operator or a property of such nodes,
/// where it throws nothing. Anything else is `None`.
pub fn plain(state: &State, spot: &Spot, number: u32) -> Result<Option<Value>, OutOfMemory>
    ensures { IfOk result (λ o.
        IfSome o (Reads spot.now (spot_node (numbered spot.now number)) state.now)) }
{
    value_of(state, spot, number, NESTING)
}

// The same, with so many levels left.
fn value_of(
    state: &State,
    spot: &Spot,
    number: u32,
    nesting: u8,
) -> Result<Option<Value>, OutOfMemory>
    ensures { IfOk result (λ o.
        IfSome o (Reads spot.now (spot_node (numbered spot.now number)) state.now)) }
{
    match spot.kind_at(number) {
        Kind::Name(name) => state.known(spot.env(), name),
        Kind::Num(number) => Ok(Some(Value::Num(*number))),
        Kind::Text(text) => Ok(Some(Value::Text(text.clone()?))),
        Kind::Bool(truth) => Ok(Some(Value::Bool(*truth))),
        Kind::Null => Ok(Some(Value::Null)),
        Kind::This => Ok(Some(spot.this().clone()?)),
        Kind::Member(name) => {
            if nesting == 0 {
                return Ok(None);
            }
            match value_of(state, spot, spot.part_at(number, 0), nesting - 1)? {
                None => Ok(None),
                Some(base) => member(state, &base, name),
            }
        }
        Kind::Binary(_) | Kind::Index => {
            if nesting == 0 {
                return Ok(None);
            }
            let Some(first) = value_of(state, spot, spot.part_at(number, 0), nesting - 1)? else {
                return Ok(None);
            };
            let second = value_of(state, spot, spot.part_at(number, 1), nesting - 1)?;
            combined(state, spot, number, &first, &second)
        }
        _ => Ok(None),
    }
}

// What an operator or a property in brackets makes of the values of its operands.
fn combined(
    state: &State,
    spot: &Spot,
    number: u32,
    first: &Value,
    second: &Option<Value>,
) -> Result<Option<Value>, OutOfMemory>
    requires first { Operand (numbered spot.now number) 0 state.now first.now }
    requires second { IfSome second.now (Operand (numbered spot.now number) 1 state.now) }
    ensures { IfOk result (λ o.
        IfSome o (Reads spot.now (spot_node (numbered spot.now number)) state.now)) }
{
    match (spot.kind_at(number), second) {
        (Kind::Binary(op), Some(second)) => Ok(operated(*op, first, second)),
        (Kind::Index, Some(second)) => element(state, first, second),
        _ => Ok(None),
    }
}

// The property of a value that can have some.
fn member(state: &State, base: &Value, name: &Units) -> Result<Option<Value>, OutOfMemory>
    ensures { IfOk result (λ o. IfSome o (λ v.
        Does (λ _. get_member base.now name.now) state.now (Val v) state.now)) }
{
    match base {
        Value::Undefined | Value::Null => Ok(None),
        _ => match state.property_of(base, name)? {
            Ok(value) => Ok(Some(value)),
            Err(_) => Ok(None),
        },
    }
}

// The same by a key that is a primitive value.
fn element(state: &State, base: &Value, key: &Value) -> Result<Option<Value>, OutOfMemory>
    ensures { IfOk result (λ o. IfSome o (λ v.
        Does (λ calls. get_index calls base.now key.now) state.now (Val v) state.now)) }
{
    match key {
        Value::Object(_) => Ok(None),
        _ => {
            let name = text_of(state.alloc(), key)?;
            member(state, base, &name)
        }
    }
}

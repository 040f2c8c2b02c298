//! How names and properties take the values of right sides (ECMA-262 5.1 section 11.13). The value of an assignment is what was assigned.

ghost use Rattle.std.specs.Prelude.{◌≡◌};
ghost use Rattle.page_meaning.specs.Act.{also};
ghost use Rattle.page_meaning.specs.Convert.{text_in};
ghost use Rattle.page_meaning.specs.Expressions.{assigned};
ghost use Rattle.page_meaning.specs.Operators.{operate};
ghost use Rattle.page_meaning.specs.HostPuts.{put_member as spec_put};
ghost use Rattle.page_frames.specs.RestProperties as spec;
ghost use Rattle.page_state.specs.Does.{Gives, itself};

use js_core::{BinaryOp, Units};
use js_values::Value;
use page_state::{Fault, State};

/// A property takes the value, which is given.
pub(crate) fn put_member(
    state: &mut State,
    base: &Value,
    name: &Units,
    value: Value,
) -> Result<Value, Fault>
    ensures { Gives itself (λ calls. assigned (spec_put calls base.now name.now) value)
        state.old state.new result }
{
    let given = value.clone()?;
    let _put = state.put_member(base, name, value)?;
    Ok(given)
}

// A property takes what the operator makes of its old value and the right side.
fn put_operated(
    state: &mut State,
    op: BinaryOp,
    base: &Value,
    name: &Units,
    old: &Value,
    value: &Value,
) -> Result<Value, Fault>
    ensures { Gives itself (λ calls. also (operate calls op old.now value.now)
        (assigned (spec_put calls base.now name.now))) state.old state.new result }
{
    let new = state.operate(op, old, value)?;
    put_member(state, base, name, new)
}

/// A property takes the value of the right side, or, where there is an operator, what it makes of the old value and the right side.
pub(crate) fn put_right(
    state: &mut State,
    op: Option<BinaryOp>,
    base: &Value,
    name: &Units,
    olds: &[Value],
    value: Value,
) -> Result<Value, Fault>
    ensures { Gives itself (λ calls. spec.put_right calls op base.now name.now olds.now value)
        state.old state.new result }
{
    match op {
        None => put_member(state, base, name, value),
        Some(op) => match olds.split_first() {
            None => Ok(Value::Undefined),
            Some((old, _)) => put_operated(state, op, base, name, old, &value),
        },
    }
}

/// The same by the text of the name.
pub(crate) fn put_by_text(
    state: &mut State,
    op: Option<BinaryOp>,
    base: &Value,
    key: &Value,
    olds: &[Value],
    value: Value,
) -> Result<Value, Fault>
    ensures { Gives itself
        (λ calls. spec.put_right calls op base.now (text_in key.now) olds.now value)
        state.old state.new result }
{
    match key {
        Value::Text(name) => put_right(state, op, base, name, olds, value),
        _ => {
            let name = Units::of(state.alloc(), &[])?;
            put_right(state, op, base, &name, olds, value)
        }
    }
}

//! What a literal that waits for a part holds: the object that it fills.

ghost use Rattle.std.specs.Prelude.{◌≡◌, ◌∷◌, [], IfOk, suc};
ghost use Rattle.js_values.specs.declared.value.Value.TheVariants.{Object};
ghost use Rattle.page_frames.specs.RestLiterals.{object_in as spec_object};
ghost use Rattle.step_expr.specs.Holding.{holder as spec_holder};

use js_core::OutOfMemory;
use js_values::{ObjId, Value};
use object_heap::Values;
use std::alloc::Global;

/// This object is held.
pub(crate) fn holding(alloc: Global, at: ObjId) -> Result<Values, OutOfMemory>
    ensures { IfOk result (λ got. got ≡ Object at ∷ []) }
{
    let mut got = Values::new(alloc);
    got.push(Value::Object(at))?;
    Ok(got)
}

/// The object that is held, or `None` exactly where nothing is.
pub(crate) fn holder(got: &Values) -> Option<ObjId>
    ensures { result ≡ spec_holder got.now }
{
    match got.as_slice().first() {
        None => None,
        Some(value) => Some(object_in(value)),
    }
}

// The object that a value is. A literal holds no other value.
fn object_in(value: &Value) -> ObjId
    ensures { result ≡ spec_object value.now }
{
    match value {
        Value::Object(at) => *at,
        Value::Undefined | Value::Null | Value::Bool(_) | Value::Num(_) | Value::Text(_) => ObjId(
            0,
        ),
    }
}

/// The number of the next part. No node has so many parts that there is none.
pub(crate) fn after(turn: u64) -> Result<u64, OutOfMemory>
    ensures { IfOk result (λ k. k ≡ suc turn) }
{
    if turn == u64::MAX {
        Err(OutOfMemory)
    } else {
        Ok(turn + 1)
    }
}

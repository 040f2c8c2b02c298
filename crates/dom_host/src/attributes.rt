//! Rows of attributes (DOM Level 2 Core, interface Element). A name is put in lower case; only `setAttribute` judges it.

ghost use Rattle.std.specs.Prelude.{◌≡◌, IfOk, is_some};
ghost use Rattle.js_values.specs.declared.built_in.BuiltIn.TheVariants as built_in;
ghost use Rattle.dom_tree.specs.Name.{folded};
ghost use Rattle.page_host.specs.HostNames.{attribute_at, text_or_null};
ghost use Rattle.page_meaning.specs.NodeRows.{node_row};
ghost use Rattle.page_state.specs.Does.{Gives, itself};
ghost use Rattle.dom_host.specs.Rows.{IsThere};

use crate::judged::{found_element, text_argument};
use js_core::{OutOfMemory, Units};
use js_values::{NodeId, Value};
use page_state::{Fault, State};

/// `getAttribute`, which gives null where there is none.
pub(crate) fn get(state: &mut State, this: &Value, args: &[Value]) -> Result<Value, Fault>
    ensures { Gives itself (λ calls. node_row calls
        built_in.NodePrototypeGetAttribute this.now args.now) state.old state.new result }
{
    let element = found_element(state, this)?;
    let name = text_argument(state, args, 0)?;
    Ok(attribute(state, element, &name)?)
}

// The text of an attribute, or null.
fn attribute(state: &State, node: NodeId, name: &Units) -> Result<Value, OutOfMemory>
    requires { IsThere state.now node }
    ensures { IfOk result (λ value. value ≡ text_or_null (attribute_at state.now.host.nodes node
        (folded name.now))) }
{
    match state.host().dom().content(node).attributes.get(name) {
        Some(value) => Ok(Value::Text(value.clone()?)),
        None => Ok(Value::Null),
    }
}

/// `setAttribute`
pub(crate) fn set(state: &mut State, this: &Value, args: &[Value]) -> Result<Value, Fault>
    ensures { Gives itself (λ calls. node_row calls
        built_in.NodePrototypeSetAttribute this.now args.now) state.old state.new result }
{
    let element = found_element(state, this)?;
    let name = text_argument(state, args, 0)?;
    let value = text_argument(state, args, 1)?;
    state.set_attribute(element, &name, &value)
}

/// `removeAttribute`
pub(crate) fn remove(state: &mut State, this: &Value, args: &[Value]) -> Result<Value, Fault>
    ensures { Gives itself (λ calls. node_row calls
        built_in.NodePrototypeRemoveAttribute this.now args.now) state.old state.new result }
{
    let element = found_element(state, this)?;
    let name = text_argument(state, args, 0)?;
    state.remove_attribute(element, &name);
    Ok(Value::Undefined)
}

/// `hasAttribute`
pub(crate) fn has(state: &mut State, this: &Value, args: &[Value]) -> Result<Value, Fault>
    ensures { Gives itself (λ calls. node_row calls
        built_in.NodePrototypeHasAttribute this.now args.now) state.old state.new result }
{
    let element = found_element(state, this)?;
    let name = text_argument(state, args, 0)?;
    Ok(Value::Bool(has_attribute(state, element, &name)))
}

fn has_attribute(state: &State, node: NodeId, name: &Units) -> bool
    requires { IsThere state.now node }
    ensures { result ≡ is_some (attribute_at state.now.host.nodes node (folded name.now)) }
{
    state
        .host()
        .dom()
        .content(node)
        .attributes
        .get(name)
        .is_some()
}

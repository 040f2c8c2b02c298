//! `++` and `--` of properties, once the base, or the base and the key, are known (ECMA-262 5.1 sections 11.3, 11.4.4 and 11.4.5).

ghost use Rattle.std.specs.Prelude.{◌≡◌};
ghost use Rattle.page_meaning.specs.Act.{also};
ghost use Rattle.page_meaning.specs.Operators.{update_with};
ghost use Rattle.page_meaning.specs.HostPuts.{put_member};
ghost use Rattle.page_meaning.specs.Properties.{read_property};
ghost use Rattle.page_frames.specs.RestProperties as spec;
ghost use Rattle.page_state.specs.Does.{Gives, itself};

use js_core::Units;
use js_values::Value;
use page_state::{Fault, State};

/// A property by its name is updated.
pub(crate) fn update_member(
    state: &mut State,
    up: bool,
    prefix: bool,
    base: &Value,
    name: &Units,
) -> Result<Value, Fault>
    ensures { Gives itself (λ calls. spec.rest_update_member calls up prefix name.now base.now)
        state.old state.new result }
{
    let old = state.get_member(base, name)?;
    state.update_member(up, prefix, base, name, &old)
}

/// A property by the value in brackets is updated.
pub(crate) fn update_index(
    state: &mut State,
    up: bool,
    prefix: bool,
    base: &Value,
    key: &Value,
) -> Result<Value, Fault>
    ensures { Gives itself (λ calls. spec.update_index calls up prefix base.now key.now)
        state.old state.new result }
{
    let name = state.key_of(base, key)?;
    update_named(state, up, prefix, base, &name)
}

// The same, once the name is known.
fn update_named(
    state: &mut State,
    up: bool,
    prefix: bool,
    base: &Value,
    name: &Units,
) -> Result<Value, Fault>
    ensures { Gives itself (λ calls. also (read_property base.now name.now)
        (update_with calls up prefix (put_member calls base.now name.now))) state.old
        state.new result }
{
    let old = state.read_property(base, name)?;
    state.update_member(up, prefix, base, name, &old)
}

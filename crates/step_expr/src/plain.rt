//! Values that are there at once (ECMA-262 5.1 sections 11.1.1 to 11.1.3, 11.3, 11.4 and 13).

ghost use Rattle.std.specs.Prelude.{◌≡◌, IfOk};
ghost use Rattle.code_table.specs.Kind.{kind_of};
ghost use Rattle.page_meaning.specs.Functions.{close_over as spec_close};
ghost use Rattle.page_meaning.specs.Names.{type_of_name as spec_type};
ghost use Rattle.page_frames.specs.Start.{start_of, start_update};
ghost use Rattle.page_frames.specs.Step.{Opens};
ghost use Rattle.page_frames.specs.Where.{here_of, spot_node};
ghost use Rattle.page_state.specs.Does.{Gives, itself};
ghost use Rattle.step_parts.specs.declared.family.Family.TheVariants.{Plain};
ghost use Rattle.step_parts.specs.Families.{family_of};

use code_table::{FunctionCode, Kind};
use js_core::{OutOfMemory, Units};
use js_values::Value;
use page_frames::{Meter, Next, Spot};
use page_state::{Fault, State};
use step_parts::give;

/// A name, a literal, `this`, a function, `typeof` of a name or an update of a name is done at once (sections 11.1.1 to 11.1.3, 11.3,
/// 11.4 and 13).
pub fn begin_plain(state: &mut State, spot: &Spot, meter: &Meter) -> Result<Next, OutOfMemory>
    requires { family_of (kind_of (spot_node spot.now)) ≡ Plain }
    ensures { IfOk result (λ n. Opens spot.now state.old meter.now n state.new meter.now) }
{
    give(plain_value(state, spot))
}

// Its value, or what it throws.
fn plain_value(state: &mut State, spot: &Spot) -> Result<Value, Fault>
    requires { family_of (kind_of (spot_node spot.now)) ≡ Plain }
    ensures { Gives itself (λ calls.
        start_of calls (here_of spot.now) (spot_node spot.now) (kind_of (spot_node spot.now)))
        state.old state.new result }
{
    match spot.kind() {
        Kind::Nothing => Ok(Value::Undefined),
        Kind::Name(name) => state.read_name(spot.env(), name),
        Kind::Num(number) => Ok(Value::Num(*number)),
        Kind::Text(text) => Ok(Value::Text(text.clone()?)),
        Kind::Bool(truth) => Ok(Value::Bool(*truth)),
        Kind::Null => Ok(Value::Null),
        Kind::This => Ok(spot.this().clone()?),
        Kind::Func(code) => function(state, spot, code),
        Kind::TypeofName(name) => type_of(state, spot, name),
        Kind::UpdateName(up, prefix, name) => update(state, spot, *up, *prefix, name),
        _ => unreachable!(),
    }
}

// A function that is made here (section 13).
fn function(state: &mut State, spot: &Spot, code: &FunctionCode) -> Result<Value, Fault>
    ensures { Gives itself (λ _. spec_close code.now spot.now.env) state.old state.new result }
{
    let made = state.close_over(code.clone()?, spot.env())?;
    Ok(Value::Object(made))
}

// `typeof` of a name (section 11.4.3).
fn type_of(state: &mut State, spot: &Spot, name: &Units) -> Result<Value, Fault>
    ensures { Gives itself (λ _. spec_type (here_of spot.now) name.now) state.old state.new result }
{
    Ok(Value::Text(state.type_of_name(spot.env(), name)?))
}

// `++` or `--` of a name (sections 11.3, 11.4.4 and 11.4.5).
fn update(
    state: &mut State,
    spot: &Spot,
    up: bool,
    prefix: bool,
    name: &Units,
) -> Result<Value, Fault>
    ensures { Gives itself (λ calls.
        start_update calls (here_of spot.now) up prefix name.now) state.old state.new result }
{
    let reference = state.resolve(spot.env(), name);
    state.update_name(up, prefix, name, reference)
}

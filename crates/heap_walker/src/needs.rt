//! The variables that a function needs from the scopes round it (ECMA-262 5.1 sections 10.2 and 13).

ghost use Rattle.std.specs.Prelude.{◌≡◌, ◌++◌, ◌∷◌, [], IfOk, OnErr, OnOk};
ghost use Rattle.code_table.specs.Declarations.{unnamed};
ghost use Rattle.scope_analysis.specs.Needs.{needed_variables};
ghost use Rattle.heap_walker.specs.Things as spec;

use code_table::FunctionCode;
use js_core::{Code, OutOfMemory, Units};
use js_values::{EnvId, Value};
use page_state::State;
use script_rules::needed_variables;
use std::alloc::Global;
use std::marker::Model;

/// Names with values, which contracts see as a list of pairs.
#[derive(Drop)]
pub struct Needs {
    items: Vec<(Units, Value)>,
}

impl Model for Needs {
    ghost use Rattle.std.specs.Prelude.{List, ℕ};
    ghost use Rattle.js_values.specs.declared.value.Value.{Value as OneValue};

    ghost Value = { List (List ℕ × OneValue) };

    ghost view = { λ n. n.items.items };
}

impl Needs {
    /// No names.
    pub fn new(alloc: Global) -> Needs
        ensures { result ≡ [] }
    {
        Needs {
            items: Vec::new(alloc),
        }
    }

    /// The names with their values, without memory.
    pub fn as_slice(&self) -> &[(Units, Value)]
        ensures { result.now ≡ self.now }
    {
        self.items.as_slice()
    }

    /// One more name with its value, which is the last. After an error nothing has changed.
    pub fn push(&mut self, name: Units, value: Value) -> Result<(), OutOfMemory>
        ensures ok { OnOk result (self.new ≡ self.old ++ (name, value) ∷ []) }
        ensures err { OnErr result (self.new ≡ self.old) }
    {
        self.items.push((name, value))?;
        Ok(())
    }
}

/// The variables that a function with this code and environment needs from the scopes round it, with their values. Where they are
/// noted of the code, the work is in proportion to them, else to the code.
pub fn needs_of(
    state: &State,
    code: &FunctionCode,
    env: Option<EnvId>,
) -> Result<Needs, OutOfMemory>
    ensures { IfOk result (λ needs. needs ≡ spec.needs_of state.now env code.now) }
{
    match code.notes() {
        Some(notes) => bound_values(state, env, notes.needed.as_slice()),
        None => found_needs(state, code, env),
    }
}

// The same, where nothing is noted.
fn found_needs(state: &State, code: &FunctionCode, env: Option<EnvId>) -> Result<Needs, OutOfMemory>
    ensures { IfOk result (λ needs. needs ≡ spec.needs_of state.now env code.now) }
{
    let names = needed_names(state.alloc(), code)?;
    bound_values(state, env, names.as_slice())
}

// Names with their values in an environment.
fn bound_values(state: &State, env: Option<EnvId>, names: &[Units]) -> Result<Needs, OutOfMemory>
    ensures { IfOk result (λ needs. needs ≡ spec.bound_values state.now env names.now) }
{
    let mut needs = Needs::new(state.alloc());
    let mut rest = names;
    while let [name, after @ ..] = rest {
        needs.push(name.clone()?, bound_value(state, env, name)?)?;
        rest = after;
    }
    Ok(needs)
}

fn bound_value(state: &State, env: Option<EnvId>, name: &Units) -> Result<Value, OutOfMemory>
    ensures { IfOk result (λ v. v ≡ spec.bound_value state.now env name.now) }
{
    match state.bound(env, name) {
        Some(value) => value.clone(),
        None => Ok(Value::Undefined),
    }
}

// The names of those variables, in the order of their uses. The work is in proportion to the function's code.
#[tactic(auto, using(crate::proofs::Needing::needed_of))]
fn needed_names(alloc: Global, code: &FunctionCode) -> Result<Vec<Units>, OutOfMemory>
    ensures { IfOk result (λ names. names.items ≡ needed_variables code.now) }
{
    let own = match code.name() {
        Some(name) => Some(name.clone()?),
        None => None,
    };
    Ok(needed_variables(alloc, &own, source_of(code))?)
}

// The function's tree, which may have a name that the function is held without.
fn source_of(code: &FunctionCode) -> &Code
    ensures { unnamed result.now ≡ unnamed code.now }
{
    code.source()
}

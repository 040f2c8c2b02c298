//! Functions of a page, how they are made, and what a construction makes of its end (ECMA-262 5.1 sections 13 and 13.2).

ghost use Rattle.std.specs.Prelude.{◌≡◌, IfOk, Some};
ghost use Rattle.std.specs.Option.{option_copied};
ghost use Rattle.code_table.specs.Declarations.{name_of};
ghost use Rattle.js_values.specs.declared.value.Value.TheVariants.{Object};
ghost use Rattle.page_meaning.specs.declared.signal.Signal.TheVariants.{Value as Val};
ghost use Rattle.page_meaning.specs.Calls.{built as spec_built, object_or as spec_object_or};
ghost use Rattle.page_meaning.specs.Functions as spec;
ghost use Rattle.page_state.specs.Does.{Does};
ghost use Rattle.page_state.specs.Functions.{closed_over, fresh_for};

use crate::places::{FUNCTION_PROTOTYPE, OBJECT_PROTOTYPE};
use crate::state::State;
use code_table::FunctionCode;
use js_core::{OutOfMemory, Units, ascii_text};
use js_values::{EnvId, ObjId, Value};
use object_heap::Class;
use std::alloc::Global;

// The length of a function is below it.
const MOST_FORMALS: usize = 4_294_967_295;

impl State {
    /// A new function with this code and this environment round it, and its `prototype` (section 13.2). More than
    /// 4,294,967,295 formals count as want of memory.
    pub fn make_function(
        &mut self,
        code: FunctionCode,
        env: Option<EnvId>,
    ) -> Result<ObjId, OutOfMemory>
        ensures { IfOk result (λ at. Does (λ _. spec.make_function code env) self.old at self.new) }
    {
        let formals = code.formals().len();
        if formals > MOST_FORMALS {
            return Err(OutOfMemory);
        }
        let class = Class::Page { code, env };
        self.heap.alloc_function(
            class,
            Some(FUNCTION_PROTOTYPE),
            formals as u64,
            Some(OBJECT_PROTOTYPE),
        )
    }

    /// What a function expression gives: a new function, whose own name, if it has one, is bound in an environment round
    /// it (section 13).
    pub fn close_over(
        &mut self,
        code: FunctionCode,
        env: Option<EnvId>,
    ) -> Result<ObjId, OutOfMemory>
        ensures { IfOk result (λ at. Does (λ _. spec.close_over code env) self.old
            (Val (Object at)) self.new) }
    {
        match own_name(&code)? {
            None => self.make_function(code, env),
            Some(name) => self.close_named(name, code, env),
        }
    }

    // The same for a function that has this name.
    fn close_named(
        &mut self,
        name: Units,
        code: FunctionCode,
        env: Option<EnvId>,
    ) -> Result<ObjId, OutOfMemory>
        ensures { IfOk result (λ at. Does (λ _. closed_over (Some name) code env) self.old
            (Val (Object at)) self.new) }
    {
        let mut names = Vec::new(self.alloc());
        names.push((name.clone()?, Value::Undefined))?;
        let round = self.make_environment(env, names)?;
        let at = self.make_function(code, Some(round))?;
        self.bind_name(round, &name, Value::Object(at));
        Ok(at)
    }

    /// The object that a construction begins with: a new one of the function's `prototype`, or of that of objects where
    /// the `prototype` is none (section 13.2.2).
    pub fn new_instance(&mut self, function: ObjId) -> Result<ObjId, OutOfMemory>
        ensures { IfOk result (λ at. Does (λ _. fresh_for function) self.old at self.new) }
    {
        let name = ascii_text(self.alloc(), b"prototype")?;
        let found = self.get_at(function, &name)?;
        self.new_object(Some(object_or(OBJECT_PROTOTYPE, &found)))
    }
}

// The name that a function is held with, if any.
fn own_name(code: &FunctionCode) -> Result<Option<Units>, OutOfMemory>
    ensures { IfOk result (λ name. name ≡ name_of code.now) }
{
    match code.name() {
        None => Ok(None),
        Some(name) => Ok(Some(name.clone()?)),
    }
}

/// What a construction gives: the object that the body returned takes the place of the new one (section 13.2.2).
pub fn built(made: ObjId, value: Value) -> Value
    ensures { result ≡ spec_built made value }
{
    match value {
        Value::Object(_) => value,
        Value::Undefined | Value::Null | Value::Bool(_) | Value::Num(_) | Value::Text(_) => {
            Value::Object(made)
        }
    }
}

/// The object that the value is, or another one where it is none.
pub fn object_or(other: ObjId, value: &Value) -> ObjId
    ensures { result ≡ spec_object_or other value.now }
{
    match value {
        Value::Object(at) => *at,
        Value::Undefined | Value::Null | Value::Bool(_) | Value::Num(_) | Value::Text(_) => other,
    }
}

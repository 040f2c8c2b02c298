//! How a function is entered: the environment that a call makes (ECMA-262 5.1 sections 10.4.3 and 10.5).

ghost use Rattle.std.specs.Prelude.{◌≡◌, ◌∷◌, [], IfOk, OnOk, bytes_eq, map};
ghost use Rattle.indexmap.specs.IndexSet.{contains};
ghost use Rattle.code_table.specs.Declarations.{formals_of};
ghost use Rattle.code_table.specs.Node.{body_of};
ghost use Rattle.code_table.specs.Table.{declared_as};
ghost use Rattle.page_meaning.specs.Act.{done, nothing};
ghost use Rattle.page_meaning.specs.Functions as spec;
ghost use Rattle.page_state.specs.Does.{Does};
ghost use Rattle.page_state.specs.Entry.{AreSeen, but_first as spec_rest, declared_in, entered, first_or_undefined as spec_first};

use crate::state::State;
use code_table::{Declared, FunctionCode};
use indexmap::IndexSet;
use js_core::{OutOfMemory, Units};
use js_values::{EnvId, Value};
use std::alloc::Global;

impl State {
    /// A function is entered up to its body: the new environment, in which its formals, the functions that it declares and
    /// its variables are bound, and the functions are made.
    pub fn enter(
        &mut self,
        code: &FunctionCode,
        env: Option<EnvId>,
        arguments: &[Value],
    ) -> Result<EnvId, OutOfMemory>
        ensures { IfOk result (λ e. Does (λ _. entered code.now env arguments.now) self.old e
            self.new) }
    {
        let names = entry_names(self.alloc(), code, arguments)?;
        let at = self.make_environment(env, names)?;
        self.declare_functions(at, code.functions())?;
        Ok(at)
    }

    // The declared functions are made, in order, and each is bound to its name (section 10.5 step 5).
    fn declare_functions(&mut self, env: EnvId, functions: &[Declared]) -> Result<(), OutOfMemory>
        ensures { IfOk result (λ _. Does (λ _. spec.declare_functions env
            (map declared_as functions.now)) self.old nothing self.new) }
    {
        let mut rest = functions;
        while let [declared, after @ ..] = rest {
            self.declare_function(env, declared)?;
            rest = after;
        }
        Ok(())
    }

    fn declare_function(&mut self, env: EnvId, declared: &Declared) -> Result<(), OutOfMemory>
        ensures { IfOk result (λ _. Does (λ _. declared_in env (declared_as declared.now) done)
            self.old nothing self.new) }
    {
        match &declared.name {
            None => Ok(()),
            Some(name) => {
                let at = self.make_function(declared.code.clone()?, Some(env))?;
                self.bind_name(env, name, Value::Object(at));
                Ok(())
            }
        }
    }
}

// What a function's environment binds at first: formals, declared functions and variables. A name is looked up in a table,
// so the work is in proportion to their number.
fn entry_names(
    alloc: Global,
    code: &FunctionCode,
    arguments: &[Value],
) -> Result<Vec<(Units, Value)>, OutOfMemory>
    ensures { IfOk result (λ names. names.items
        ≡ spec.entry_names (formals_of code.now) (body_of code.now) arguments.now) }
{
    let mut names = with_arguments(alloc, code.formals(), arguments)?;
    let mut seen = name_table(alloc, names.as_slice())?;
    add_functions(&mut seen, &mut names, code.functions())?;
    add_names(&mut seen, &mut names, code.variables())?;
    Ok(names)
}

// The formals with the arguments, or undefined. Further arguments are dropped.
fn with_arguments(
    alloc: Global,
    formals: &[Units],
    arguments: &[Value],
) -> Result<Vec<(Units, Value)>, OutOfMemory>
    ensures { IfOk result (λ names. names.items ≡ spec.with_arguments formals.now arguments.now) }
{
    let mut names = Vec::new(alloc);
    let mut given = arguments;
    let mut rest = formals;
    while let [name, after @ ..] = rest {
        names.push((name.clone()?, first_or_undefined(given)?))?;
        given = but_first(given);
        rest = after;
    }
    Ok(names)
}

fn first_or_undefined(values: &[Value]) -> Result<Value, OutOfMemory>
    ensures { IfOk result (λ v. v ≡ spec_first values.now) }
{
    match values {
        [] => Ok(Value::Undefined),
        [value, ..] => value.clone(),
    }
}

fn but_first(values: &[Value]) -> &[Value]
    ensures { result.now ≡ spec_rest values.now }
{
    match values {
        [] => values,
        [_, after @ ..] => after,
    }
}

// A table of the names that are bound.
fn name_table(alloc: Global, names: &[(Units, Value)]) -> Result<IndexSet<Units>, OutOfMemory>
    ensures { IfOk result (λ seen. AreSeen seen.keys names.now) }
{
    let mut seen = IndexSet::new(alloc);
    for (name, _) in names {
        seen.insert(name.clone()?)?;
    }
    Ok(seen)
}

// The names of the declared functions that are not bound are bound to undefined.
fn add_functions(
    seen: &mut IndexSet<Units>,
    names: &mut Vec<(Units, Value)>,
    functions: &[Declared],
) -> Result<(), OutOfMemory>
    requires { AreSeen seen.old.keys names.old.items }
    ensures names { OnOk result (names.new.items
        ≡ spec.with_names names.old.items (spec.function_names (map declared_as functions.now))) }
    ensures seen { OnOk result (AreSeen seen.new.keys names.new.items) }
{
    let mut rest = functions;
    while let [declared, after @ ..] = rest {
        add_function(seen, names, declared)?;
        rest = after;
    }
    Ok(())
}

fn add_function(
    seen: &mut IndexSet<Units>,
    names: &mut Vec<(Units, Value)>,
    declared: &Declared,
) -> Result<(), OutOfMemory>
    requires { AreSeen seen.old.keys names.old.items }
    ensures names { OnOk result (names.new.items
        ≡ spec.with_names names.old.items (spec.function_names (declared_as declared.now ∷ []))) }
    ensures seen { OnOk result (AreSeen seen.new.keys names.new.items) }
{
    match &declared.name {
        None => Ok(()),
        Some(name) => add_name(seen, names, name),
    }
}

// The names that are not bound are bound to undefined.
fn add_names(
    seen: &mut IndexSet<Units>,
    names: &mut Vec<(Units, Value)>,
    more: &[Units],
) -> Result<(), OutOfMemory>
    requires { AreSeen seen.old.keys names.old.items }
    ensures { OnOk result (names.new.items ≡ spec.with_names names.old.items more.now) }
{
    let mut rest = more;
    while let [name, after @ ..] = rest {
        add_name(seen, names, name)?;
        rest = after;
    }
    Ok(())
}

fn add_name(
    seen: &mut IndexSet<Units>,
    names: &mut Vec<(Units, Value)>,
    name: &Units,
) -> Result<(), OutOfMemory>
    requires { AreSeen seen.old.keys names.old.items }
    ensures names { OnOk result (names.new.items
        ≡ spec.with_names names.old.items (name.now ∷ [])) }
    ensures seen { OnOk result (AreSeen seen.new.keys names.new.items) }
{
    if !seen.insert(name.clone()?)? {
        return Ok(());
    }
    names.push((name.clone()?, Value::Undefined))?;
    Ok(())
}

//! What a script declares at the top: properties of the global object (ECMA-262 5.1 section 10.5).

ghost use Rattle.std.specs.Prelude.{◌≡◌, map};
ghost use Rattle.std.specs.Option.{option_copied};
ghost use Rattle.js_values.specs.declared.value.Value.TheVariants.{Undefined};
ghost use Rattle.code_table.specs.Declarations.{functions_of, variables_of};
ghost use Rattle.code_table.specs.Node.{body_of};
ghost use Rattle.code_table.specs.Table.{declared_as};
ghost use Rattle.page_meaning.specs.Act.{asking, done};
ghost use Rattle.page_meaning.specs.Functions as spec;
ghost use Rattle.page_state.specs.Does.{Gives, no_value};
ghost use Rattle.page_state.specs.Globals.{declared_global, keeps_place as spec_keeps, named_global, takes_place as spec_takes};

use crate::fault::Fault;
use crate::places::WINDOW;
use crate::state::State;
use code_table::{Declared, FunctionCode};
use js_core::Units;
use js_values::{ObjId, Throw, Value};
use object_heap::{Change, Prop};

impl State {
    /// The functions that a script declares: each is made before its name is judged, and put (section 10.5 step 5).
    pub fn declare_globals(&mut self, code: &FunctionCode) -> Result<(), Fault>
        ensures { Gives no_value (λ _. spec.declare_globals (functions_of (body_of code.now)))
            self.old self.new result }
    {
        self.declare_all(code.functions())
    }

    fn declare_all(&mut self, functions: &[Declared]) -> Result<(), Fault>
        ensures { Gives no_value (λ _. spec.declare_globals (map declared_as functions.now))
            self.old self.new result }
    {
        let mut rest = functions;
        while let [declared, after @ ..] = rest {
            self.declare_global(declared)?;
            rest = after;
        }
        Ok(())
    }

    fn declare_global(&mut self, declared: &Declared) -> Result<(), Fault>
        ensures { Gives no_value (λ _. declared_global (declared_as declared.now) done) self.old
            self.new result }
    {
        match &declared.name {
            None => Ok(()),
            Some(name) => {
                let at = self.make_function(declared.code.clone()?, None)?;
                self.put_global(name, at)
            }
        }
    }

    // A declared function gets its place on the global object.
    fn put_global(&mut self, name: &Units, function: ObjId) -> Result<(), Fault>
        ensures { Gives no_value (λ _. named_global name.now function done) self.old self.new
            result }
    {
        self.place_function(name)?;
        self.put_in(WINDOW, name, Value::Object(function))?;
        Ok(())
    }

    // The place is made, or is there already, or cannot be taken.
    fn place_function(&mut self, name: &Units) -> Result<(), Fault>
        ensures { Gives no_value (λ _. asking (spec.own_global name.now)
            (spec.take_function name.now)) self.old self.new result }
    {
        let own = self.own(WINDOW, name);
        if takes_place(own) {
            return self.define_global(name);
        }
        if keeps_place(own) {
            return Ok(());
        }
        Err(self.raise(Throw::CannotDefine))
    }

    /// The variables that a script declares, where the global object does not have them (section 10.5 step 8).
    pub fn global_variables(&mut self, code: &FunctionCode) -> Result<(), Fault>
        ensures { Gives no_value (λ _. spec.global_variables (variables_of (body_of code.now)))
            self.old self.new result }
    {
        self.place_all(code.variables())
    }

    fn place_all(&mut self, names: &[Units]) -> Result<(), Fault>
        ensures { Gives no_value (λ _. spec.global_variables names.now) self.old self.new result }
    {
        let mut rest = names;
        while let [name, after @ ..] = rest {
            self.place_variable(name)?;
            rest = after;
        }
        Ok(())
    }

    fn place_variable(&mut self, name: &Units) -> Result<(), Fault>
        ensures { Gives no_value (λ _. asking (spec.own_global name.now)
            (spec.take_variable name.now)) self.old self.new result }
    {
        match self.own(WINDOW, name) {
            Some(_) => Ok(()),
            None => self.define_global(name),
        }
    }

    // A new property of the global object, or that of an earlier script, which cannot be deleted.
    fn define_global(&mut self, name: &Units) -> Result<(), Fault>
        ensures { Gives no_value (λ _. spec.define_global name.now) self.old self.new result }
    {
        match self.define_at(WINDOW, name, &script_property(Value::Undefined))? {
            None => Ok(()),
            Some(what) => Err(self.raise(what)),
        }
    }
}

fn script_property(value: Value) -> Change
    ensures { result ≡ spec.script_property value }
{
    Change {
        value: Some(value),
        writable: Some(true),
        enumerable: Some(true),
        configurable: Some(false),
    }
}

// Whether a declared function makes its property anew.
fn takes_place(own: Option<&Prop>) -> bool
    ensures { result ≡ spec_takes (option_copied own.entry) }
{
    match own {
        None => true,
        Some(prop) => prop.configurable,
    }
}

// Whether a declared function may take the property as it is.
fn keeps_place(own: Option<&Prop>) -> bool
    ensures { result ≡ spec_keeps (option_copied own.entry) }
{
    match own {
        None => false,
        Some(prop) => prop.writable && prop.enumerable,
    }
}

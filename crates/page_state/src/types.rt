//! `typeof` (ECMA-262 5.1 section 11.4.3).

ghost use Rattle.std.specs.Prelude.{◌≡◌, IfOk};
ghost use Rattle.js_values.specs.declared.value.Value.TheVariants.{Text};
ghost use Rattle.page_meaning.specs.Act.{also};
ghost use Rattle.page_meaning.specs.Names as names;
ghost use Rattle.page_meaning.specs.Names.{Here};
ghost use Rattle.page_meaning.specs.Operators as spec;
ghost use Rattle.page_state.specs.Does.{Gives};

use crate::fault::Fault;
use crate::state::State;
use js_core::{OutOfMemory, Units, ascii_text};
use js_values::{EnvId, Value};
use page_meaning::Reference;

impl State {
    /// The word for a value's type.
    pub fn type_text(&self, value: &Value) -> Result<Units, OutOfMemory>
        ensures { IfOk result (λ t. t ≡ spec.type_of self.now value.now) }
    {
        ascii_text(self.alloc(), self.type_word(value))
    }

    fn type_word(&self, value: &Value) -> &'static [u8]
        ensures { result.now ≡ spec.type_of self.now value.now }
    {
        match value {
            Value::Undefined => b"undefined",
            Value::Null => b"object",
            Value::Bool(_) => b"boolean",
            Value::Num(_) => b"number",
            Value::Text(_) => b"string",
            Value::Object(_) => type_of_object(self.is_function(value)),
        }
    }

    /// `typeof` of a name, which may not be resolved.
    pub fn type_of_name(&mut self, env: Option<EnvId>, name: &Units) -> Result<Units, Fault>
        ensures { (here : Here) → here.env ≡ env
            → Gives Text (λ _. names.type_of_name here name.now) self.old self.new result }
    {
        let reference = self.resolve(env, name);
        self.type_of_reference(name, reference)
    }

    // `typeof` of a name by what it means.
    fn type_of_reference(&mut self, name: &Units, reference: Reference) -> Result<Units, Fault>
        ensures { Gives Text (λ _. names.type_of_reference name.now reference) self.old self.new
            result }
    {
        match reference {
            Reference::Environment(_) => self.type_of_read(name, reference),
            Reference::Global => self.type_of_read(name, reference),
            Reference::Nowhere => Ok(self.type_text(&Value::Undefined)?),
        }
    }

    // The word for the type of the value that a name has.
    fn type_of_read(&mut self, name: &Units, reference: Reference) -> Result<Units, Fault>
        ensures { Gives Text (λ _. also (names.read name.now reference) spec.give_type) self.old
            self.new result }
    {
        let value = self.read(name, reference)?;
        Ok(self.type_text(&value)?)
    }
}

fn type_of_object(is_function: bool) -> &'static [u8]
    ensures { result.now ≡ spec.type_of_object is_function }
{
    if is_function { b"function" } else { b"object" }
}

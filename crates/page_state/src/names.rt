//! References to names (ECMA-262 5.1 sections 8.7 and 10.2.2.1).

ghost use Rattle.std.specs.Prelude.{◌≡◌, IfOk, IfSome};
ghost use Rattle.object_heap.specs.Chain.{get};
ghost use Rattle.object_heap.specs.Heap.{look_in};
ghost use Rattle.page_meaning.specs.declared.reference.Reference.TheVariants.{Global};
ghost use Rattle.page_meaning.specs.declared.signal.Signal.TheVariants.{Value as Val};
ghost use Rattle.page_meaning.specs.Names as spec;
ghost use Rattle.page_meaning.specs.Names.{Here};
ghost use Rattle.page_meaning.specs.Places.{window};
ghost use Rattle.page_state.specs.Does.{Does, Gives, itself};

use crate::fault::Fault;
use crate::places::WINDOW;
use crate::state::State;
use js_core::{OutOfMemory, Units};
use js_values::{EnvId, Throw, Value};
use page_meaning::Reference;

impl State {
    /// What a name means, from an environment outwards; none stands at the top of a script. Takes no memory.
    pub fn resolve(&self, env: Option<EnvId>, name: &Units) -> Reference
        ensures { (here : Here) → here.env ≡ env
            → Does (λ _. spec.resolve here name.now) self.now result self.now }
    {
        match self.heap.look_in(env, name) {
            Some((at, _)) => Reference::Environment(at),
            None => {
                if self.has_property(WINDOW, name) {
                    Reference::Global
                } else {
                    Reference::Nowhere
                }
            }
        }
    }

    /// The value of a name, where it means something.
    pub fn known(&self, env: Option<EnvId>, name: &Units) -> Result<Option<Value>, OutOfMemory>
        ensures { IfOk result (λ o. IfSome o (λ v. (here : Here) → here.env ≡ env
            → Does (λ _. spec.read_name here name.now) self.now (Val v) self.now)) }
    {
        match self.heap.look_in(env, name) {
            Some((_, value)) => Ok(Some(value.clone()?)),
            None => self.global_value(name),
        }
    }

    /// The value of a name by what it meant when it was resolved (section 8.7.1).
    pub fn read(&mut self, name: &Units, reference: Reference) -> Result<Value, Fault>
        ensures { Gives itself (λ _. spec.read name.now reference) self.old self.new result }
    {
        match reference {
            Reference::Environment(at) => Ok(self.held(at, name)?),
            Reference::Global => self.read_global(name),
            Reference::Nowhere => Err(self.raise(Throw::NotDefined(name.clone()?))),
        }
    }

    // The value that an environment has for a name.
    fn held(&self, at: EnvId, name: &Units) -> Result<Value, OutOfMemory>
        ensures { IfOk result (λ v. v ≡ spec.held
            (look_in self.now.heap.environments (Some at) name.now)) }
    {
        match self.heap.look_in(Some(at), name) {
            Some((_, value)) => value.clone(),
            None => Ok(Value::Undefined),
        }
    }

    // The value that the global object has for a name.
    fn read_global(&mut self, name: &Units) -> Result<Value, Fault>
        ensures { Gives itself (λ _. spec.read name.now Global) self.old self.new result }
    {
        match self.global_value(name)? {
            Some(value) => Ok(value),
            None => Err(self.raise(Throw::NotDefined(name.clone()?))),
        }
    }

    fn global_value(&self, name: &Units) -> Result<Option<Value>, OutOfMemory>
        ensures { IfOk result (λ v. v ≡ get self.now.heap.objects window.0 name.now) }
    {
        match self.get(WINDOW, name) {
            Some(value) => Ok(Some(value.clone()?)),
            None => Ok(None),
        }
    }

    /// The value of a name.
    pub fn read_name(&mut self, env: Option<EnvId>, name: &Units) -> Result<Value, Fault>
        ensures { (here : Here) → here.env ≡ env
            → Gives itself (λ _. spec.read_name here name.now) self.old self.new result }
    {
        let reference = self.resolve(env, name);
        self.read(name, reference)
    }

    /// A name takes the value, by what it meant when it was resolved (section 8.7.2).
    pub fn write(
        &mut self,
        name: &Units,
        reference: Reference,
        value: Value,
    ) -> Result<Value, Fault>
        ensures { Gives itself (λ _. spec.write name.now reference value) self.old self.new result }
    {
        match reference {
            Reference::Environment(at) => {
                let given = value.clone()?;
                self.bind_name(at, name, value);
                Ok(given)
            }
            Reference::Global => self.put_in(WINDOW, name, value),
            Reference::Nowhere => Err(self.raise(Throw::NotDefined(name.clone()?))),
        }
    }

    /// A name is resolved and takes the value at once.
    pub fn assign_name(
        &mut self,
        env: Option<EnvId>,
        name: &Units,
        value: Value,
    ) -> Result<Value, Fault>
        ensures { (here : Here) → here.env ≡ env
            → Gives itself (λ _. spec.assign_name here name.now value) self.old self.new result }
    {
        let reference = self.resolve(env, name);
        self.write(name, reference, value)
    }
}

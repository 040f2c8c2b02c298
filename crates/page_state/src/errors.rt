//! How errors are thrown, as new objects (ECMA-262 5.1 section 15.11).

ghost use Rattle.std.specs.Prelude.{◌≡◌, ◌∷◌, IfOk, Some, codes, pos, refl};
ghost use Rattle.js_values.specs.declared.value.Value.TheVariants as value;
ghost use Rattle.js_values.specs.Throw.{code_of, message_of};
ghost use Rattle.object_heap.specs.Property.{hidden};
ghost use Rattle.page_meaning.specs.Errors.{code_props, error_fit, error_object, raise as spec_raise, settle as spec_settle};
ghost use Rattle.page_meaning.specs.Places.{error_prototype as spec_prototype};
ghost use Rattle.page_meaning.specs.Primitives.{make};
ghost use Rattle.page_state.specs.Does.{Does, Gives, Raises, itself};

use crate::fault::Fault;
use crate::state::State;
use js_core::{OutOfMemory, Whole, ascii_text};
use js_values::{ErrorKind, ObjId, Throw, Value};
use object_heap::{Class, Prop, Properties};
use std::alloc::Global;

impl State {
    /// Throws a new error.
    #[tactic(auto, using(crate::proofs::Does::raised))]
    pub fn raise(&mut self, what: Throw) -> Fault
        ensures { Raises (λ _. spec_raise what) self.old self.new result }
    {
        match self.make_error(&what) {
            Ok(at) => Fault::Cause(Value::Object(at)),
            Err(_) => Fault::OutOfMemory,
        }
    }

    // A new error with its own properties.
    fn make_error(&mut self, what: &Throw) -> Result<ObjId, OutOfMemory>
        ensures { IfOk result (λ at. Does (λ _. make (error_object what.now)
            (error_fit what.now) refl) self.old at self.new) }
    {
        let props = error_props(self.alloc(), what)?;
        let proto = error_prototype(what.kind());
        self.heap.alloc_whole(Class::Fault, Some(proto), props)
    }

    /// The value, or the error.
    pub fn settle(&mut self, answer: Result<Value, Throw>) -> Result<Value, Fault>
        ensures { Gives itself (λ _. spec_settle answer) self.old self.new result }
    {
        match answer {
            Ok(value) => Ok(value),
            Err(what) => Err(self.raise(what)),
        }
    }
}

// The own properties of an error: its message and, where the host throws it, its code.
fn error_props(alloc: Global, what: &Throw) -> Result<Properties, OutOfMemory>
    ensures { IfOk result (λ props. props ≡ (
      codes "message",
      hidden
          (value.Text (message_of what.now)),
    ) ∷ code_props (code_of what.now)) }
{
    let name = ascii_text(alloc, b"message")?;
    let message = what.message(alloc)?;
    let mut props = Properties::new(alloc);
    props.push(&name, Prop::hidden(Value::Text(message)))?;
    match what.code() {
        Some(code) => {
            let name = ascii_text(alloc, b"code")?;
            props.push(&name, Prop::hidden(Value::Num(small(code))))?;
            Ok(props)
        }
        None => Ok(props),
    }
}

/// A number of at most 255.
pub fn small(n: u8) -> Whole
    ensures { result ≡ Some (pos n) }
{
    match Whole::new(i64::from(n)) {
        Some(number) => number,
        None => Whole::nan(),
    }
}

/// The prototype of errors of a kind.
#[tactic(auto, unfolding(page_meaning::specs::Places::error_prototype_place, page_meaning::specs::Places::type_error_prototype_place, page_meaning::specs::Places::range_error_prototype_place, page_meaning::specs::Places::reference_error_prototype_place))]
pub fn error_prototype(kind: ErrorKind) -> ObjId
    ensures { result ≡ spec_prototype kind }
{
    match kind {
        ErrorKind::Plain => ObjId(88),
        ErrorKind::Type => ObjId(90),
        ErrorKind::Range => ObjId(92),
        ErrorKind::Reference => ObjId(94),
    }
}

//! New objects and arrays.

ghost use Rattle.std.specs.Prelude.{◌≡◌, IfOk, Some, refl};
ghost use Rattle.object_heap.specs.declared.object.Class.TheVariants.{Plain};
ghost use Rattle.object_heap.specs.Heap.{new_object};
ghost use Rattle.object_heap.proofs.Callers.{new_fit};
ghost use Rattle.page_meaning.specs.Expressions as spec;
ghost use Rattle.page_meaning.specs.Primitives.{make};
ghost use Rattle.page_state.specs.Does.{Does};

use crate::places::{ARRAY_PROTOTYPE, OBJECT_PROTOTYPE};
use crate::state::State;
use js_core::OutOfMemory;
use js_values::ObjId;
use object_heap::Class;

impl State {
    /// A new plain object of this prototype.
    pub fn new_object(&mut self, proto: Option<ObjId>) -> Result<ObjId, OutOfMemory>
        ensures { IfOk result (λ at. Does (λ _. make (new_object Plain proto)
            (new_fit Plain proto) refl) self.old at self.new) }
    {
        self.heap.alloc(Class::Plain, proto)
    }

    /// A new plain object (section 15.2.2.1).
    pub fn new_plain(&mut self) -> Result<ObjId, OutOfMemory>
        ensures { IfOk result (λ at. Does (λ _. spec.new_plain) self.old at self.new) }
    {
        self.heap.alloc(Class::Plain, Some(OBJECT_PROTOTYPE))
    }

    /// A new array without elements (section 15.4.2.1).
    #[tactic(auto, unfolding(page_meaning::specs::Places::array_prototype_place))]
    pub fn new_list(&mut self) -> Result<ObjId, OutOfMemory>
        ensures { IfOk result (λ at. Does (λ _. spec.new_list) self.old at self.new) }
    {
        self.heap.alloc(Class::List, Some(ARRAY_PROTOTYPE))
    }
}

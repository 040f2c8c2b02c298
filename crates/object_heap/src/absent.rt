//! What stands for the class of an object where there is none.

ghost use Rattle.std.specs.Prelude.{◌≡◌};
ghost use Rattle.object_heap.specs.declared.object.Class.TheVariants.{Plain};

use crate::object::Class;

/// The class of an object where there is none.
#[derive(Drop)]
pub(crate) struct Absent {
    class: Class,
    ghost plain: { class ≡ Plain },
}

impl Absent {
    pub(crate) fn new() -> Absent {
        Absent {
            class: Class::Plain,
        }
    }

    pub(crate) fn class(&self) -> &Class
        ensures { result.now ≡ Plain }
    {
        &self.class
    }
}

//! A page while it runs.

ghost use Rattle.std.specs.Prelude.{◌≡◌, ◌<◌, [], IfOk, IfSome, OnOk, false, length, slice_get};
ghost use Rattle.std.specs.Map.{keys_of};
ghost use Rattle.std.specs.Map.Iter.{deref_pair};
ghost use Rattle.std.specs.Option.{option_copied, option_map};
ghost use Rattle.object_heap.specs.Chain.{get, object_at};
ghost use Rattle.object_heap.specs.Heap.{look_in, made};
ghost use Rattle.object_heap.specs.Object.{is_list, whole_object};
ghost use Rattle.object_heap.specs.Property.{own_property};
ghost use Rattle.page_host.specs.HostNames.{host_name};
ghost use Rattle.page_meaning.specs.Classes.{class_at};
ghost use Rattle.page_meaning.specs.HostNames.{has_host_name, has_named_host, is_kept};
ghost use Rattle.page_meaning.specs.Primitives.{
  bind_name as spec_bind,
  define_at as spec_define,
  delete_at as spec_delete,
  find_name as spec_find,
  make_environment as spec_environment,
  prevent_at as spec_prevent,
  put_at as spec_put,
  put_line as spec_line,
};
ghost use Rattle.page_meaning.specs.Store.{silent, with_heap, without_lines};
ghost use Rattle.page_state.specs.Does.{Does};
ghost use Rattle.page_state.specs.Refusals.{Refuses};

use js_core::{OutOfMemory, Units};
use js_values::{EnvId, Line, LineKind, ObjId, Throw, Value};
use object_heap::{Change, Class, Heap, HeapFault, Prop, Properties};
use page_host::{HostName, PageHost, is_handler};
use std::alloc::Global;
use std::marker::Model;

/// A page while it runs: its heap, the lines that it put out, and what the host keeps for it.
pub struct State {
    pub(crate) heap: Heap,
    pub(crate) lines: Vec<Line>,
    pub(crate) host: PageHost,
}

// A function of its own, so that the crates above cite it and do not prove it again.
impl Drop for State {
    fn drop(self) {
        let State {
            heap: _heap,
            lines: _lines,
            host: _host,
        } = self;
    }
}

impl Model for State {
    ghost use Rattle.page_meaning.specs.Store.{Store, store_of};
    ghost use Rattle.page_state.specs.CodedStore.{coded_store};

    ghost Value = { Store };

    ghost coded = { coded_store };

    ghost view = { λ s. store_of s.heap s.lines.items s.host };
}

impl State {
    /// A page that has put out nothing, with these objects and this host.
    pub fn new(alloc: Global, heap: Heap, host: PageHost) -> State
        ensures { result ≡ silent heap host }
    {
        State {
            heap,
            lines: Vec::new(alloc),
            host,
        }
    }

    /// Where its memory comes from.
    pub fn alloc(&self) -> Global {
        *self.lines.allocator()
    }

    /// What the host keeps for it.
    pub fn host(&self) -> &PageHost
        ensures { result.now ≡ self.now.host }
    {
        &self.host
    }

    /// The number of objects.
    pub fn count(&self) -> u64
        ensures { result ≡ length self.now.heap.objects }
    {
        self.heap.count()
    }

    /// The class of an object.
    pub fn class(&self, at: ObjId) -> &Class
        ensures { result.now ≡ class_at self.now at }
    {
        self.heap.class(at)
    }

    /// The value of a property of an object, its own or inherited, or `None` exactly where there is none (section 8.12.3).
    pub fn get(&self, at: ObjId, name: &Units) -> Option<&Value>
        ensures { option_copied result ≡ get self.now.heap.objects at.0 name.now }
    {
        self.heap.get(at, name)
    }

    /// The prototype of an object, which is older.
    pub fn proto(&self, at: ObjId) -> Option<ObjId>
        ensures proto { result ≡ (object_at self.now.heap.objects at.0).proto }
        ensures older { IfSome result (λ p. p.0 < at.0) }
    {
        self.heap.proto(at)
    }

    /// Whether an object may get new properties.
    pub fn is_extensible(&self, at: ObjId) -> bool
        ensures { result ≡ (object_at self.now.heap.objects at.0).extensible }
    {
        self.heap.is_extensible(at)
    }

    /// An own property of an object, or `None` exactly where there is none (section 8.12.1).
    pub fn own(&self, at: ObjId, name: &Units) -> Option<&Prop>
        ensures { option_copied result ≡ own_property
            (object_at self.now.heap.objects at.0).props name.now }
    {
        self.heap.own(at, name)
    }

    /// The own property of this index in the order of creation, with its name, or `None` exactly past the last.
    pub fn own_at(&self, at: ObjId, index: u64) -> Option<(&Units, &Prop)>
        ensures { option_map deref_pair result
            ≡ slice_get (object_at self.now.heap.objects at.0).props index }
    {
        self.heap.own_at(at, index)
    }

    /// The names of the own properties of an object in the order of creation.
    pub fn own_keys(&self, at: ObjId) -> Result<Vec<Units>, OutOfMemory>
        ensures { IfOk result (λ names. names.items
            ≡ keys_of (object_at self.now.heap.objects at.0).props) }
    {
        self.heap.own_keys(at)
    }

    /// A new object that is no array, with these properties.
    pub fn make(
        &mut self,
        class: Class,
        proto: Option<ObjId>,
        props: Properties,
    ) -> Result<ObjId, OutOfMemory>
        requires { is_list class ≡ false }
        ensures id { IfOk result (λ at. at.0 ≡ length self.old.heap.objects) }
        ensures made { OnOk result (self.new ≡ with_heap self.old
            (made self.old.heap (whole_object class proto props))) }
    {
        self.heap.alloc_whole(class, proto, props)
    }

    /// Whether an object has the host name itself.
    pub fn has_host_name(&self, at: ObjId, name: HostName) -> bool
        ensures { result ≡ has_host_name self.now.host.nodes (class_at self.now at) name }
    {
        match self.class(at) {
            Class::Node(node) => self.host.has_name(*node, name),
            Class::Event(_) => name.is_of_event(),
            Class::Plain
            | Class::List
            | Class::Page { .. }
            | Class::Native(_)
            | Class::Bound { .. }
            | Class::Fault
            | Class::Math
            | Class::Window => false,
        }
    }

    /// Whether the name is a host name of the object itself.
    pub fn has_named_host(&self, at: ObjId, name: &Units) -> bool
        ensures { result ≡ has_named_host self.now.host.nodes (class_at self.now at)
            (host_name name.now) }
    {
        match HostName::of(name) {
            Some(host) => self.has_host_name(at, host),
            None => false,
        }
    }

    // Whether nothing may be put or defined there: a host name of its own, and a handler of a node.
    fn is_kept(&self, at: ObjId, name: &Units) -> bool
        ensures { result ≡ is_kept self.now.host.nodes (class_at self.now at) name.now }
    {
        match self.class(at) {
            Class::Node(_) => is_handler(name) || self.has_named_host(at, name),
            Class::Event(_) => self.has_named_host(at, name),
            Class::Plain
            | Class::List
            | Class::Page { .. }
            | Class::Native(_)
            | Class::Bound { .. }
            | Class::Fault
            | Class::Math
            | Class::Window => false,
        }
    }

    /// Puts a value to a property, and tells what is thrown, if something is (section 8.12.5).
    #[tactic(auto, using(crate::proofs::Unkept::put_kept, crate::proofs::Unkept::put_free))]
    pub fn put_at(
        &mut self,
        at: ObjId,
        name: &Units,
        value: Value,
    ) -> Result<Option<Throw>, OutOfMemory>
        ensures { IfOk result (λ t. Does (λ _. spec_put at name.now value) self.old t self.new) }
    {
        if self.is_kept(at, name) {
            return Ok(Some(Throw::CannotSet));
        }
        refusal(self.heap.put(at, name, value))
    }

    /// Defines a property, and tells what is thrown, if something is (section 8.12.9).
    #[tactic(auto, using(crate::proofs::Unkept::define_kept, crate::proofs::Unkept::define_free))]
    pub fn define_at(
        &mut self,
        at: ObjId,
        name: &Units,
        change: &Change,
    ) -> Result<Option<Throw>, OutOfMemory>
        ensures { IfOk result (λ t. Does (λ _. spec_define at name.now change.now) self.old t
            self.new) }
    {
        if self.is_kept(at, name) {
            return Ok(Some(Throw::CannotDefine));
        }
        refusal(self.heap.define_own(at, name, change))
    }

    /// Deletes a property, and tells what is thrown, if something is (section 8.12.7).
    pub fn delete_at(&mut self, at: ObjId, name: &Units) -> Result<Option<Throw>, OutOfMemory>
        ensures { IfOk result (λ t. Does (λ _. spec_delete at name.now) self.old t self.new) }
    {
        refusal(self.heap.delete(at, name))
    }

    /// Lets an object get no new properties, and tells what is thrown, if something is (section 15.2.3.10).
    pub fn prevent_at(&mut self, at: ObjId) -> Result<Option<Throw>, OutOfMemory>
        ensures { IfOk result (λ t. Does (λ _. spec_prevent at) self.old t self.new) }
    {
        refusal(self.heap.prevent_extensions(at))
    }

    /// A new environment in which these names are bound (section 10.2.2.2).
    pub fn make_environment(
        &mut self,
        outer: Option<EnvId>,
        names: Vec<(Units, Value)>,
    ) -> Result<EnvId, OutOfMemory>
        ensures { IfOk result (λ e. Does (λ _. spec_environment outer names.items) self.old e
            self.new) }
    {
        self.heap.new_env(outer, names)
    }

    /// The name of an environment takes the value (section 10.2.1.1.3).
    pub fn bind_name(&mut self, at: EnvId, name: &Units, value: Value)
        ensures { Does (λ _. spec_bind at name.now value) self.old tt self.new }
    {
        self.heap.set(at, name, value);
    }

    /// The value of a name in the innermost environment outwards that has it, or `None` exactly where none has it
    /// (section 10.2.2.1).
    pub fn bound(&self, env: Option<EnvId>, name: &Units) -> Option<&Value>
        ensures { option_copied result ≡ option_map (λ found. found.1)
            (look_in self.now.heap.environments env name.now) }
    {
        match self.heap.look_in(env, name) {
            Some((_, value)) => Some(value),
            None => None,
        }
    }

    /// The lines that it put out, oldest first.
    pub fn lines(&self) -> &[Line]
        ensures { result.now ≡ self.now.lines }
    {
        self.lines.as_slice()
    }

    /// Drops its lines. Takes no memory.
    pub fn clear_lines(&mut self)
        ensures { self.new ≡ without_lines self.old }
    {
        self.lines.clear();
    }

    /// One more line.
    pub fn put_line(&mut self, kind: LineKind, text: Units) -> Result<(), OutOfMemory>
        ensures { IfOk result (λ _. Does (λ _. spec_line kind (λ _. text)) self.old tt self.new) }
    {
        self.lines.push(Line { kind, text })?;
        Ok(())
    }
}

// What the heap refused.
fn refusal(answer: Result<(), HeapFault>) -> Result<Option<Throw>, OutOfMemory>
    ensures { Refuses answer result }
{
    match answer {
        Ok(()) => Ok(None),
        Err(HeapFault::Cause(what)) => Ok(Some(what)),
        Err(HeapFault::OutOfMemory) => Err(OutOfMemory),
    }
}

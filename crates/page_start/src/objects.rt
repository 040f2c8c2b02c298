//! A page before its scripts: the built-in objects by age, and the objects of its nodes (ECMA-262 5.1 section 15).

ghost use Rattle.std.specs.Prelude.{◌≡◌, ◌∷◌, ◌<◌, ◌≤◌, ◌++◌, [], IfOk, OnOk, false, true, length};
ghost use Rattle.object_heap.specs.declared.object.Class.TheVariants.{Native};
ghost use Rattle.object_heap.specs.Chain.{object_at};
ghost use Rattle.object_heap.specs.Heap.{empty};
ghost use Rattle.object_heap.specs.Object.{class_at, is_list};
ghost use Rattle.page_meaning.specs.Pristine as spec;
ghost use Rattle.page_meaning.specs.Places.{function_prototype, node_prototype};
ghost use Rattle.page_start.specs.BuiltIns.{
  are_new,
  array_prototype_object,
  beside,
  constructor_front,
  hidden_change as spec_hidden,
  method_given,
  methods_given,
  native_errors,
  rows,
  takes,
  takes_all,
};

use crate::methods::{
    constructor_props, error_prototype_props, function_props, function_prototype_props,
    global_props, host_constructor_props, prototype_props, table_props,
};
use crate::tables::{
    ARRAY_FUNCTIONS, ARRAY_PROTOTYPE_FUNCTIONS, BOOLEAN_PROTOTYPE_FUNCTIONS, CONSOLE_FUNCTIONS,
    EVENT_PROTOTYPE_FUNCTIONS, FUNCTION_PROTOTYPE_FUNCTIONS, GLOBAL_FUNCTIONS, MATH_FUNCTIONS,
    Method, NODE_PROTOTYPE_FUNCTIONS, NUMBER_PROTOTYPE_FUNCTIONS, OBJECT_FUNCTIONS,
    OBJECT_PROTOTYPE_FUNCTIONS, STRING_FUNCTIONS, STRING_PROTOTYPE_FUNCTIONS, TIMER_FUNCTIONS,
};
use dom_tree::Dom;
use js_core::{OutOfMemory, ascii_text};
use js_values::{BuiltIn, ErrorKind, NodeId, ObjId, Value};
use object_heap::{Change, Class, Heap, HeapFault, Properties};
use page_host::PageHost;
use page_state::{
    ARRAY_PROTOTYPE, BOOLEAN_PROTOTYPE, EVENT_PROTOTYPE, FUNCTION_PROTOTYPE, NODE_PROTOTYPE,
    NUMBER_PROTOTYPE, OBJECT_PROTOTYPE, STRING_PROTOTYPE, State, error_prototype, function_at,
};
use std::alloc::Global;

/// A page before its scripts, with these nodes.
pub fn pristine(alloc: Global, dom: Dom) -> Result<State, OutOfMemory>
    ensures { IfOk result (λ s. s ≡ spec.pristine dom) }
{
    let mut heap = Heap::new(alloc);
    push_built_ins(alloc, &mut heap)?;
    let objects = push_node_objects(alloc, &mut heap, &dom)?;
    let host = PageHost::new(alloc, dom, objects);
    Ok(State::new(alloc, heap, host))
}

// All built-in objects.
fn push_built_ins(alloc: Global, heap: &mut Heap) -> Result<(), OutOfMemory>
    requires { heap.old ≡ empty }
    ensures { OnOk result (heap.new ≡ beside empty spec.built_ins) }
{
    push_first(alloc, heap)?;
    push_value_kinds(alloc, heap)?;
    push_errors(alloc, heap)?;
    push_hosts(alloc, heap)?;
    push_natives(alloc, heap, &GLOBAL_FUNCTIONS)
}

// An object for each node, in the order of the nodes; these are their places.
fn push_node_objects(alloc: Global, heap: &mut Heap, dom: &Dom) -> Result<Vec<ObjId>, OutOfMemory>
    requires { node_prototype.0 < length heap.old.objects }
    ensures heap { OnOk result (heap.new ≡ beside heap.old (spec.node_objects 0 dom.now)) }
    ensures places { IfOk result (λ places. places.items ≡ spec.places_from
        (length heap.old.objects) dom.now) }
{
    let mut places = Vec::new(alloc);
    for node in 0..dom.count() {
        let at = heap.alloc(Class::Node(NodeId(node)), Some(NODE_PROTOTYPE))?;
        places.push(at)?;
    }
    Ok(places)
}

// A built-in object that is no array and no bound function; it is closed.
#[tactic(auto, using(crate::proofs::Youngest::closed_youngest))]
fn push_built(
    heap: &mut Heap,
    class: Class,
    proto: ObjId,
    props: Properties,
) -> Result<(), OutOfMemory>
    requires ordinary { is_list class ≡ false }
    requires unbound { class_at (length heap.old.objects) class ≡ class }
    requires older { proto.0 < length heap.old.objects }
    ensures { OnOk result (heap.new ≡ beside heap.old (spec.built class proto props ∷ [])) }
{
    let at = heap.alloc_whole(class, Some(proto), props)?;
    heap.close(at);
    Ok(())
}

// A built-in function with these properties.
fn push_function(heap: &mut Heap, which: BuiltIn, props: Properties) -> Result<(), OutOfMemory>
    requires { 2 < length heap.old.objects }
    ensures { OnOk result (heap.new ≡ beside heap.old (spec.built (Native which)
        function_prototype props ∷ [])) }
{
    push_built(heap, Class::Native(which), FUNCTION_PROTOTYPE, props)
}

// A built-in function with so many formals.
fn push_native(
    alloc: Global,
    heap: &mut Heap,
    which: BuiltIn,
    formals: u8,
) -> Result<(), OutOfMemory>
    requires { 2 < length heap.old.objects }
    ensures { OnOk result (heap.new ≡ beside heap.old (spec.native which formals ∷ [])) }
{
    let props = function_props(alloc, formals)?;
    push_function(heap, which, props)
}

// These built-in functions.
fn push_natives(alloc: Global, heap: &mut Heap, methods: &[Method]) -> Result<(), OutOfMemory>
    requires { 2 < length heap.old.objects }
    ensures { OnOk result (heap.new ≡ beside heap.old (spec.natives (rows methods.now))) }
{
    for method in methods {
        push_native(alloc, heap, method.1, method.2)?;
    }
    Ok(())
}

// A constructor with one formal, which has this `prototype` and these functions.
fn push_constructor(
    alloc: Global,
    heap: &mut Heap,
    which: BuiltIn,
    prototype: ObjId,
    own: &[Method],
) -> Result<(), OutOfMemory>
    requires room { 2 < length heap.old.objects }
    requires own { are_new (constructor_front prototype) (rows own.now) ≡ true }
    ensures { OnOk result (heap.new ≡ beside heap.old (spec.constructor which prototype (rows
        own.now) ∷ [])) }
{
    let props = constructor_props(alloc, prototype, own)?;
    push_function(heap, which, props)
}

// An ordinary object that is the prototype of a constructor, and has these functions.
fn push_prototype(
    alloc: Global,
    heap: &mut Heap,
    which: BuiltIn,
    inherited: &[Method],
) -> Result<(), OutOfMemory>
    requires room { 1 < length heap.old.objects }
    requires inherited { are_new (spec.constructor_is which ∷ []) (rows inherited.now) ≡ true }
    ensures { OnOk result (heap.new ≡ beside heap.old (spec.value_prototype which (rows
        inherited.now) ∷ [])) }
{
    let props = prototype_props(alloc, which, inherited)?;
    push_built(heap, Class::Plain, OBJECT_PROTOTYPE, props)
}

// A constructor with such a prototype, and what they hold.
fn push_value(
    alloc: Global,
    heap: &mut Heap,
    which: BuiltIn,
    prototype: ObjId,
    inherited: &[Method],
    own: &[Method],
) -> Result<(), OutOfMemory>
    requires room { 2 < length heap.old.objects }
    requires inherited { are_new (spec.constructor_is which ∷ []) (rows inherited.now) ≡ true }
    requires own { are_new (constructor_front prototype) (rows own.now) ≡ true }
    ensures { OnOk result (heap.new ≡ beside heap.old (spec.value_built_ins which prototype (rows
        inherited.now) (rows own.now))) }
{
    push_constructor(alloc, heap, which, prototype, own)?;
    push_prototype(alloc, heap, which, inherited)?;
    push_natives(alloc, heap, inherited)?;
    push_natives(alloc, heap, own)
}

// What the walk meets before the kinds of values.
fn push_first(alloc: Global, heap: &mut Heap) -> Result<(), OutOfMemory>
    requires { heap.old ≡ empty }
    ensures { OnOk result (heap.new ≡ beside empty spec.first_built_ins) }
{
    push_roots(alloc, heap)?;
    push_host(alloc, heap)?;
    push_objects(alloc, heap)?;
    push_functions(alloc, heap)
}

// The global object, and the prototypes of objects and of functions.
fn push_roots(alloc: Global, heap: &mut Heap) -> Result<(), OutOfMemory>
    requires { heap.old ≡ empty }
    ensures { OnOk result (heap.new ≡ beside empty spec.root_objects) }
{
    let props = global_props(alloc)?;
    heap.alloc_whole(Class::Window, None, props)?;
    let props = prototype_props(alloc, BuiltIn::Object, &OBJECT_PROTOTYPE_FUNCTIONS)?;
    let at = heap.alloc_whole(Class::Plain, None, props)?;
    heap.close(at);
    let props = function_prototype_props(alloc)?;
    let class = Class::Native(BuiltIn::FunctionPrototype);
    push_built(heap, class, OBJECT_PROTOTYPE, props)
}

// `console`, `alert` and timers.
fn push_host(alloc: Global, heap: &mut Heap) -> Result<(), OutOfMemory>
    requires { 2 < length heap.old.objects }
    ensures { OnOk result (heap.new ≡ beside heap.old spec.host_built_ins) }
{
    let props = table_props(alloc, &CONSOLE_FUNCTIONS)?;
    push_built(heap, Class::Plain, OBJECT_PROTOTYPE, props)?;
    push_natives(alloc, heap, &CONSOLE_FUNCTIONS)?;
    push_native(alloc, heap, BuiltIn::Alert, 1)?;
    push_natives(alloc, heap, &TIMER_FUNCTIONS)
}

// `Object`, and what its prototype and it hold.
fn push_objects(alloc: Global, heap: &mut Heap) -> Result<(), OutOfMemory>
    requires { 2 < length heap.old.objects }
    ensures { OnOk result (heap.new ≡ beside heap.old spec.object_built_ins) }
{
    push_constructor(
        alloc,
        heap,
        BuiltIn::Object,
        OBJECT_PROTOTYPE,
        &OBJECT_FUNCTIONS,
    )?;
    push_natives(alloc, heap, &OBJECT_PROTOTYPE_FUNCTIONS)?;
    push_natives(alloc, heap, &OBJECT_FUNCTIONS)
}

// `Function`, and what its prototype holds.
fn push_functions(alloc: Global, heap: &mut Heap) -> Result<(), OutOfMemory>
    requires { 2 < length heap.old.objects }
    ensures { OnOk result (heap.new ≡ beside heap.old spec.function_built_ins) }
{
    push_constructor(alloc, heap, BuiltIn::Function, FUNCTION_PROTOTYPE, &[])?;
    push_natives(alloc, heap, &FUNCTION_PROTOTYPE_FUNCTIONS)
}

// The constructors of arrays, texts, numbers and truth values, with their prototypes, and `Math`.
fn push_value_kinds(alloc: Global, heap: &mut Heap) -> Result<(), OutOfMemory>
    requires { 2 < length heap.old.objects }
    ensures { OnOk result (heap.new ≡ beside heap.old spec.value_kinds) }
{
    push_array(alloc, heap)?;
    push_primitives(alloc, heap)?;
    push_math(alloc, heap)
}

#[tactic(auto, unfolding(page_meaning::specs::Places::array_prototype_place))]
fn push_array(alloc: Global, heap: &mut Heap) -> Result<(), OutOfMemory>
    requires { 2 < length heap.old.objects }
    ensures { OnOk result (heap.new ≡ beside heap.old spec.array_built_ins) }
{
    push_constructor(
        alloc,
        heap,
        BuiltIn::Array,
        ARRAY_PROTOTYPE,
        &ARRAY_FUNCTIONS,
    )?;
    push_array_prototype(alloc, heap)?;
    push_natives(alloc, heap, &ARRAY_PROTOTYPE_FUNCTIONS)?;
    push_natives(alloc, heap, &ARRAY_FUNCTIONS)
}

// An array that has its constructor and its functions after its length.
fn push_array_prototype(alloc: Global, heap: &mut Heap) -> Result<(), OutOfMemory>
    requires { 1 < length heap.old.objects }
    ensures { OnOk result (heap.new ≡ beside heap.old (array_prototype_object ∷ [])) }
{
    let at = heap.alloc(Class::List, Some(OBJECT_PROTOTYPE))?;
    define_method(alloc, heap, at, b"constructor", BuiltIn::Array)?;
    define_methods(alloc, heap, at, &ARRAY_PROTOTYPE_FUNCTIONS)?;
    heap.close(at);
    Ok(())
}

// An open array gets these functions.
fn define_methods(
    alloc: Global,
    heap: &mut Heap,
    at: ObjId,
    methods: &[Method],
) -> Result<(), OutOfMemory>
    requires there { at.0 < length heap.old.objects }
    requires takes { takes_all (object_at heap.old.objects at.0) (rows methods.now) ≡ true }
    ensures { OnOk result (heap.new ≡ methods_given heap.old at (rows methods.now)) }
{
    for method in methods {
        define_method(alloc, heap, at, method.0, method.1)?;
    }
    Ok(())
}

// An open array gets one more property, which holds a built-in function.
fn define_method(
    alloc: Global,
    heap: &mut Heap,
    at: ObjId,
    name: &[u8],
    which: BuiltIn,
) -> Result<(), OutOfMemory>
    requires { takes (object_at heap.old.objects at.0) name.now ≡ true }
    ensures { OnOk result (heap.new ≡ method_given heap.old at name.now which) }
{
    let name = ascii_text(alloc, name)?;
    let change = hidden_change(Value::Object(function_at(which)));
    match heap.define_own(at, &name, &change) {
        Ok(()) => Ok(()),
        Err(HeapFault::OutOfMemory) => Err(OutOfMemory),
        Err(HeapFault::Cause(_)) => unreachable!(),
    }
}

// The constructors of texts, numbers and truth values, with their prototypes.
#[tactic(auto, unfolding(page_meaning::specs::Places::string_prototype_place, page_meaning::specs::Places::number_prototype_place, page_meaning::specs::Places::boolean_prototype_place))]
fn push_primitives(alloc: Global, heap: &mut Heap) -> Result<(), OutOfMemory>
    requires { 2 < length heap.old.objects }
    ensures { OnOk result (heap.new ≡ beside heap.old (spec.string_built_ins ++
        (spec.number_built_ins ++ spec.boolean_built_ins))) }
{
    push_value(
        alloc,
        heap,
        BuiltIn::String,
        STRING_PROTOTYPE,
        &STRING_PROTOTYPE_FUNCTIONS,
        &STRING_FUNCTIONS,
    )?;
    push_value(
        alloc,
        heap,
        BuiltIn::Number,
        NUMBER_PROTOTYPE,
        &NUMBER_PROTOTYPE_FUNCTIONS,
        &[],
    )?;
    push_value(
        alloc,
        heap,
        BuiltIn::Boolean,
        BOOLEAN_PROTOTYPE,
        &BOOLEAN_PROTOTYPE_FUNCTIONS,
        &[],
    )
}

fn push_math(alloc: Global, heap: &mut Heap) -> Result<(), OutOfMemory>
    requires { 2 < length heap.old.objects }
    ensures { OnOk result (heap.new ≡ beside heap.old spec.math_built_ins) }
{
    let props = table_props(alloc, &MATH_FUNCTIONS)?;
    push_built(heap, Class::Math, OBJECT_PROTOTYPE, props)?;
    push_natives(alloc, heap, &MATH_FUNCTIONS)
}

// The constructors of errors, each with its prototype.
fn push_errors(alloc: Global, heap: &mut Heap) -> Result<(), OutOfMemory>
    requires { 87 ≤ length heap.old.objects }
    ensures { OnOk result (heap.new ≡ beside heap.old spec.error_built_ins) }
{
    push_error(
        alloc,
        heap,
        BuiltIn::Error,
        ErrorKind::Plain,
        OBJECT_PROTOTYPE,
    )?;
    push_native_errors(alloc, heap)
}

// Those whose prototypes inherit from that of Error.
#[tactic(auto, unfolding(page_meaning::specs::Places::error_prototype_place))]
fn push_native_errors(alloc: Global, heap: &mut Heap) -> Result<(), OutOfMemory>
    requires { 89 ≤ length heap.old.objects }
    ensures { OnOk result (heap.new ≡ beside heap.old native_errors) }
{
    let above = error_prototype(ErrorKind::Plain);
    push_error(alloc, heap, BuiltIn::TypeError, ErrorKind::Type, above)?;
    push_error(alloc, heap, BuiltIn::RangeError, ErrorKind::Range, above)?;
    push_error(
        alloc,
        heap,
        BuiltIn::ReferenceError,
        ErrorKind::Reference,
        above,
    )
}

// The constructor of errors of a kind, and its prototype below this one.
fn push_error(
    alloc: Global,
    heap: &mut Heap,
    which: BuiltIn,
    kind: ErrorKind,
    above: ObjId,
) -> Result<(), OutOfMemory>
    requires function { 2 < length heap.old.objects }
    requires older { above.0 < length heap.old.objects }
    ensures { OnOk result (heap.new ≡ beside heap.old (spec.error_pair which kind above)) }
{
    push_constructor(alloc, heap, which, error_prototype(kind), &[])?;
    let props = error_prototype_props(alloc, which, kind)?;
    push_built(heap, Class::Fault, above, props)
}

// `Node` and `Event`, with their prototypes and what these hold.
fn push_hosts(alloc: Global, heap: &mut Heap) -> Result<(), OutOfMemory>
    requires { 2 < length heap.old.objects }
    ensures { OnOk result (heap.new ≡ beside heap.old spec.node_built_ins) }
{
    push_host_kind(
        alloc,
        heap,
        BuiltIn::Node,
        NODE_PROTOTYPE,
        &NODE_PROTOTYPE_FUNCTIONS,
    )?;
    push_host_kind(
        alloc,
        heap,
        BuiltIn::Event,
        EVENT_PROTOTYPE,
        &EVENT_PROTOTYPE_FUNCTIONS,
    )
}

// A constructor without formals, and its prototype, which has no `constructor`, with what it holds.
fn push_host_kind(
    alloc: Global,
    heap: &mut Heap,
    which: BuiltIn,
    prototype: ObjId,
    inherited: &[Method],
) -> Result<(), OutOfMemory>
    requires room { 2 < length heap.old.objects }
    requires inherited { are_new [] (rows inherited.now) ≡ true }
    ensures { OnOk result (heap.new ≡ beside heap.old (spec.constructor_built_ins_of 0 which
        prototype (spec.host_prototype (rows inherited.now)) (rows inherited.now))) }
{
    let props = host_constructor_props(alloc, prototype)?;
    push_function(heap, which, props)?;
    let props = table_props(alloc, inherited)?;
    push_built(heap, Class::Plain, OBJECT_PROTOTYPE, props)?;
    push_natives(alloc, heap, inherited)
}

// A property that may be written and deleted and is not listed.
fn hidden_change(value: Value) -> Change
    ensures { result ≡ spec_hidden value }
{
    Change {
        value: Some(value),
        writable: Some(true),
        enumerable: Some(false),
        configurable: Some(true),
    }
}

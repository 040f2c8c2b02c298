//! The properties of the built-in objects that a page begins with (ECMA-262 5.1 section 15).

ghost use Rattle.std.specs.Prelude.{◌≡◌, ◌∷◌, ◌++◌, [], IfOk, None, OnOk, codes, true};
ghost use Rattle.js_values.specs.declared.value.Value.TheVariants as value;
ghost use Rattle.js_values.specs.Throw.{kind_name};
ghost use Rattle.object_heap.specs.Define.{length_name, number};
ghost use Rattle.object_heap.specs.Property.{fixed, hidden, own_property};
ghost use Rattle.page_meaning.specs.Pristine as spec;
ghost use Rattle.page_meaning.specs.Pristine.{method};
ghost use Rattle.page_start.specs.BuiltIns.{are_new, constructor_front, function_front, rows};

use crate::tables::{FUNCTION_PROTOTYPE_FUNCTIONS, GLOBAL_FUNCTIONS, Method, TIMER_FUNCTIONS};
use js_core::{OutOfMemory, Whole, ascii_text};
use js_values::{BuiltIn, ErrorKind, ObjId, Value};
use object_heap::{Prop, Properties};
use page_state::{CONSOLE, DOCUMENT, MATH, WINDOW, function_at, small};
use std::alloc::Global;

// One more property, which holds a built-in function.
fn add_method(
    alloc: Global,
    props: &mut Properties,
    name: &[u8],
    which: BuiltIn,
) -> Result<(), OutOfMemory>
    requires { own_property props.old name.now ≡ None }
    ensures { OnOk result (props.new ≡ props.old ++ method name.now which ∷ []) }
{
    let function = Value::Object(function_at(which));
    add_property(alloc, props, name, Prop::hidden(function))
}

// One more property.
fn add_property(
    alloc: Global,
    props: &mut Properties,
    name: &[u8],
    prop: Prop,
) -> Result<(), OutOfMemory>
    requires { own_property props.old name.now ≡ None }
    ensures { OnOk result (props.new ≡ props.old ++ (name.now, prop) ∷ []) }
{
    let name = ascii_text(alloc, name)?;
    props.push(&name, prop)?;
    Ok(())
}

// More properties, which hold these functions.
fn add_methods(alloc: Global, props: &mut Properties, methods: &[Method]) -> Result<(), OutOfMemory>
    requires { are_new props.old (rows methods.now) ≡ true }
    ensures { OnOk result (props.new ≡ props.old ++ spec.methods (rows methods.now)) }
{
    for method in methods {
        add_method(alloc, props, method.0, method.1)?;
    }
    Ok(())
}

/// Properties that hold these functions, and no others.
pub(crate) fn table_props(alloc: Global, methods: &[Method]) -> Result<Properties, OutOfMemory>
    requires { are_new [] (rows methods.now) ≡ true }
    ensures { IfOk result (λ props. props ≡ spec.methods (rows methods.now)) }
{
    let mut props = Properties::new(alloc);
    add_methods(alloc, &mut props, methods)?;
    Ok(props)
}

/// The properties of a constructor without formals, which has this `prototype`.
pub(crate) fn host_constructor_props(
    alloc: Global,
    prototype: ObjId,
) -> Result<Properties, OutOfMemory>
    ensures { IfOk result (λ props. props ≡ function_front 0 ++ spec.prototype_is prototype ∷ []) }
{
    let mut props = function_props(alloc, 0)?;
    add_property(
        alloc,
        &mut props,
        b"prototype",
        Prop::fixed(Value::Object(prototype)),
    )?;
    Ok(props)
}

/// The properties of a function with so many formals.
pub(crate) fn function_props(alloc: Global, formals: u8) -> Result<Properties, OutOfMemory>
    ensures { IfOk result (λ props. props ≡ function_front formals) }
{
    let mut props = Properties::new(alloc);
    add_property(
        alloc,
        &mut props,
        b"length",
        Prop::fixed(Value::Num(small(formals))),
    )?;
    Ok(props)
}

/// The properties of a constructor with one formal, this `prototype` and these functions.
pub(crate) fn constructor_props(
    alloc: Global,
    prototype: ObjId,
    own: &[Method],
) -> Result<Properties, OutOfMemory>
    requires { are_new (constructor_front prototype) (rows own.now) ≡ true }
    ensures { IfOk result (λ props. props ≡ constructor_front prototype ++ spec.methods (rows
        own.now)) }
{
    let mut props = function_props(alloc, 1)?;
    add_property(
        alloc,
        &mut props,
        b"prototype",
        Prop::fixed(Value::Object(prototype)),
    )?;
    add_methods(alloc, &mut props, own)?;
    Ok(props)
}

/// The properties of an ordinary object that is the prototype of a constructor: it, and these functions.
pub(crate) fn prototype_props(
    alloc: Global,
    which: BuiltIn,
    inherited: &[Method],
) -> Result<Properties, OutOfMemory>
    requires { are_new (spec.constructor_is which ∷ []) (rows inherited.now) ≡ true }
    ensures { IfOk result (λ props. props ≡ spec.constructor_is which ∷ spec.methods (rows
        inherited.now)) }
{
    let mut props = Properties::new(alloc);
    add_method(alloc, &mut props, b"constructor", which)?;
    add_methods(alloc, &mut props, inherited)?;
    Ok(props)
}

/// The properties of `Function.prototype` (section 15.3.4).
pub(crate) fn function_prototype_props(alloc: Global) -> Result<Properties, OutOfMemory>
    ensures { IfOk result (λ props. props ≡ spec.function_prototype_props) }
{
    let mut props = function_props(alloc, 0)?;
    add_method(alloc, &mut props, b"constructor", BuiltIn::Function)?;
    add_methods(alloc, &mut props, &FUNCTION_PROTOTYPE_FUNCTIONS)?;
    Ok(props)
}

/// The properties of the global object (section 15.1).
pub(crate) fn global_props(alloc: Global) -> Result<Properties, OutOfMemory>
    ensures { IfOk result (λ props. props ≡ spec.global_props) }
{
    let mut props = global_host(alloc)?;
    add_constructors(alloc, &mut props)?;
    add_errors(alloc, &mut props)?;
    add_nodes(alloc, &mut props)?;
    add_methods(alloc, &mut props, &GLOBAL_FUNCTIONS)?;
    add_property(
        alloc,
        &mut props,
        b"undefined",
        Prop::fixed(Value::Undefined),
    )?;
    add_property(
        alloc,
        &mut props,
        b"NaN",
        Prop::fixed(Value::Num(Whole::nan())),
    )?;
    Ok(props)
}

#[tactic(auto, unfolding(page_meaning::specs::Places::console_place, page_meaning::specs::Places::built_in_count))]
fn global_host(alloc: Global) -> Result<Properties, OutOfMemory>
    ensures { IfOk result (λ props. props ≡ spec.global_host) }
{
    let mut props = Properties::new(alloc);
    add_property(
        alloc,
        &mut props,
        b"window",
        Prop::fixed(Value::Object(WINDOW)),
    )?;
    add_property(
        alloc,
        &mut props,
        b"document",
        Prop::fixed(Value::Object(DOCUMENT)),
    )?;
    add_property(
        alloc,
        &mut props,
        b"console",
        Prop::hidden(Value::Object(CONSOLE)),
    )?;
    add_method(alloc, &mut props, b"alert", BuiltIn::Alert)?;
    add_methods(alloc, &mut props, &TIMER_FUNCTIONS)?;
    Ok(props)
}

#[tactic(auto, unfolding(page_meaning::specs::Places::math_place))]
fn add_constructors(alloc: Global, props: &mut Properties) -> Result<(), OutOfMemory>
    requires { props.old ≡ spec.global_host }
    ensures { OnOk result (props.new ≡ spec.global_host ++ spec.global_constructors) }
{
    add_method(alloc, props, b"Object", BuiltIn::Object)?;
    add_method(alloc, props, b"Function", BuiltIn::Function)?;
    add_method(alloc, props, b"Array", BuiltIn::Array)?;
    add_method(alloc, props, b"String", BuiltIn::String)?;
    add_method(alloc, props, b"Number", BuiltIn::Number)?;
    add_method(alloc, props, b"Boolean", BuiltIn::Boolean)?;
    add_property(alloc, props, b"Math", Prop::hidden(Value::Object(MATH)))
}

fn add_errors(alloc: Global, props: &mut Properties) -> Result<(), OutOfMemory>
    requires { props.old ≡ spec.global_host ++ spec.global_constructors }
    ensures { OnOk result (props.new ≡ spec.global_host ++ (spec.global_constructors ++
        spec.global_errors)) }
{
    add_method(alloc, props, b"Error", BuiltIn::Error)?;
    add_method(alloc, props, b"TypeError", BuiltIn::TypeError)?;
    add_method(alloc, props, b"RangeError", BuiltIn::RangeError)?;
    add_method(alloc, props, b"ReferenceError", BuiltIn::ReferenceError)
}

fn add_nodes(alloc: Global, props: &mut Properties) -> Result<(), OutOfMemory>
    requires { props.old ≡ spec.global_host ++ (spec.global_constructors ++ spec.global_errors) }
    ensures { OnOk result (props.new ≡ spec.global_host ++ (spec.global_constructors ++
        (spec.global_errors ++ spec.global_nodes))) }
{
    add_method(alloc, props, b"Node", BuiltIn::Node)?;
    add_method(alloc, props, b"Event", BuiltIn::Event)
}

/// The properties of the prototype of errors of a kind (sections 15.11.4 and 15.11.7).
pub(crate) fn error_prototype_props(
    alloc: Global,
    which: BuiltIn,
    kind: ErrorKind,
) -> Result<Properties, OutOfMemory>
    ensures { IfOk result (λ props. props ≡ spec.error_prototype_props which kind) }
{
    let mut props = Properties::new(alloc);
    add_method(alloc, &mut props, b"constructor", which)?;
    let name = ascii_text(alloc, kind.name())?;
    add_property(alloc, &mut props, b"name", Prop::hidden(Value::Text(name)))?;
    let message = ascii_text(alloc, b"")?;
    add_property(
        alloc,
        &mut props,
        b"message",
        Prop::hidden(Value::Text(message)),
    )?;
    Ok(props)
}

//! Arrays that are made (ECMA-262 5.1 sections 15.4.2, 15.2.3.4 and 15.2.3.14).

ghost use Rattle.std.specs.Prelude.{◌≡◌};
ghost use Rattle.std.specs.Fmt.{decimal};
ghost use Rattle.js_values.specs.declared.value.Value.TheVariants.{Num, Object, Text};
ghost use Rattle.object_heap.specs.Define.{length_name, valid_length};
ghost use Rattle.page_meaning.specs.Act.{also, bind, give};
ghost use Rattle.page_meaning.specs.Expressions.{new_list};
ghost use Rattle.page_meaning.specs.ObjectRows.{list_texts, new_texts as spec_texts};
ghost use Rattle.page_meaning.specs.Properties.{define_member, put_in};
ghost use Rattle.page_meaning.specs.ValueRows as spec;
ghost use Rattle.page_state.specs.Does.{Gives};
ghost use Rattle.new_lists.specs.Lists.{for_object, is_a_length as spec_length, lone_number as spec_lone};

use js_core::{Units, Whole, ascii_text};
use js_values::{ObjId, Throw, Value};
use object_heap::{Change, index_name};
use page_state::{Fault, State};

// A property that may be written, listed and configured.
fn define_whole(state: &mut State, at: ObjId, name: &Units, value: Value) -> Result<(), Fault>
    ensures { Gives (λ _. value) (λ _. define_member at name.now value) state.old state.new result }
{
    let change = Change {
        value: Some(value),
        writable: Some(true),
        enumerable: Some(true),
        configurable: Some(true),
    };
    match state.define_at(at, name, &change)? {
        None => Ok(()),
        Some(what) => Err(state.raise(what)),
    }
}

// The element of an array at an index.
fn define_element(state: &mut State, list: ObjId, index: u64, value: &Value) -> Result<(), Fault>
    ensures { Gives (λ _. value.now) (λ _. define_member list (decimal index) value.now) state.old
        state.new result }
{
    let name = index_name(state.alloc(), index)?;
    define_whole(state, list, &name, value.clone()?)
}

fn define_text(state: &mut State, list: ObjId, index: u64, text: &Units) -> Result<(), Fault>
    ensures { Gives (λ _. Text text.now) (λ _. define_member list (decimal index) (Text text.now))
        state.old state.new result }
{
    let name = index_name(state.alloc(), index)?;
    define_whole(state, list, &name, Value::Text(text.clone()?))
}

// The values become the elements of an array from its start.
fn fill_values(state: &mut State, list: ObjId, values: &[Value]) -> Result<(), Fault>
    ensures { Gives (for_object list) (λ _. spec.list_values list 0 values.now) state.old state.new
        result }
{
    for index in 0..values.len() {
        define_element(state, list, index as u64, &values[index])?;
    }
    Ok(())
}

// The texts become the elements of an array from its start.
fn fill_texts(state: &mut State, list: ObjId, texts: &[Units]) -> Result<(), Fault>
    ensures { Gives (for_object list) (λ _. list_texts list 0 texts.now) state.old state.new
        result }
{
    for index in 0..texts.len() {
        define_text(state, list, index as u64, &texts[index])?;
    }
    Ok(())
}

// A new array of these values.
fn list_of(state: &mut State, values: &[Value]) -> Result<ObjId, Fault>
    ensures { Gives Object (λ _. bind new_list (λ a. spec.list_values a 0 values.now)) state.old
        state.new result }
{
    let list = state.new_list()?;
    fill_values(state, list, values)?;
    Ok(list)
}

/// A new array of texts.
pub fn new_texts(state: &mut State, texts: &[Units]) -> Result<ObjId, Fault>
    ensures { Gives Object (λ _. spec_texts texts.now) state.old state.new result }
{
    let list = state.new_list()?;
    fill_texts(state, list, texts)?;
    Ok(list)
}

// The length of an array becomes the number.
fn set_length(state: &mut State, list: ObjId, length: Whole) -> Result<(), Fault>
    ensures { Gives (for_object list) (λ _. also (put_in list length_name (Num length))
        (λ _. give (Object list))) state.old state.new result }
{
    let name = ascii_text(state.alloc(), b"length")?;
    state.put_in(list, &name, Value::Num(length))?;
    Ok(())
}

// A new array of this length without elements.
fn sized_list(state: &mut State, length: Whole) -> Result<ObjId, Fault>
    ensures { Gives Object (λ _. bind new_list
        (λ a. also (put_in a length_name (Num length)) (λ _. give (Object a)))) state.old state.new
        result }
{
    let list = state.new_list()?;
    set_length(state, list, length)?;
    Ok(list)
}

// Whether an array may have the length.
fn is_a_length(number: Whole) -> bool
    ensures { result ≡ spec_length number }
{
    match number.get() {
        Some(n) => n >= 0 && n <= 4_294_967_295,
        None => false,
    }
}

// A new array of a length that is to be one.
fn list_of_length(state: &mut State, length: Whole) -> Result<ObjId, Fault>
    ensures { Gives Object (λ _. spec.list_of_length (valid_length (Num length))) state.old
        state.new result }
{
    if is_a_length(length) {
        sized_list(state, length)
    } else {
        Err(state.raise(Throw::InvalidLength))
    }
}

// The number that is the only value, where it is so.
fn lone_number(values: &[Value]) -> Option<Whole>
    ensures { result ≡ spec_lone values.now }
{
    match values {
        [Value::Num(number)] => Some(*number),
        _ => None,
    }
}

/// `Array(..)` and `new Array(..)`: a single number is a length (section 15.4.2).
pub fn list_from(state: &mut State, values: &[Value]) -> Result<ObjId, Fault>
    ensures { Gives Object (λ _. spec.list_from values.now) state.old state.new result }
{
    match lone_number(values) {
        Some(length) => list_of_length(state, length),
        None => list_of(state, values),
    }
}

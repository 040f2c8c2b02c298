//! Texts of values in lines, where nothing is converted.

ghost use Rattle.std.specs.Prelude.{◌≡◌, ◌++◌, ◌∷◌, IfOk, OnOk, codes};
ghost use Rattle.std.specs.List.{flat_map};
ghost use Rattle.page_meaning.specs.Lines as spec;
ghost use Rattle.page_meaning.specs.Properties.{class_at, get_at};
ghost use Rattle.page_state.specs.Does.{Does};
ghost use Rattle.page_state.specs.LineTexts.{spaced};

use crate::convert::text_of;
use crate::state::State;
use js_core::{OutOfMemory, Units, ascii_text, push_ascii};
use js_values::{LineKind, ObjId, Value};
use object_heap::Class;
use page_meaning::Signal;

impl State {
    /// The text of a value in a line: an object tells its class.
    pub fn log_text(&self, value: &Value) -> Result<Units, OutOfMemory>
        ensures { IfOk result (λ t. t ≡ spec.log_text self.now value.now) }
    {
        let mut out = Vec::new(self.alloc());
        self.push_log_text(value, &mut out)?;
        Units::of(self.alloc(), out.as_slice())
    }

    fn push_log_text(&self, value: &Value, out: &mut Vec<u16>) -> Result<(), OutOfMemory>
        ensures { OnOk result (out.new.items ≡ out.old.items ++ spec.log_text self.now value.now) }
    {
        match value {
            Value::Object(at) => push_object_text(self.class(*at), out),
            Value::Undefined | Value::Null | Value::Bool(_) | Value::Num(_) | Value::Text(_) => {
                let text = text_of(self.alloc(), value)?;
                out.extend_from_slice(text.as_slice())?;
                Ok(())
            }
        }
    }

    /// The texts of values, joined by spaces.
    pub fn log_texts(&self, values: &[Value]) -> Result<Units, OutOfMemory>
        ensures { IfOk result (λ t. t ≡ spec.log_texts values.now self.now) }
    {
        match values {
            [] => Units::of(self.alloc(), &[]),
            [value, rest @ ..] => self.joined(value, rest),
        }
    }

    // The text of a value, and those of others behind it.
    #[tactic(auto, using(crate::proofs::LineTexts::joined))]
    fn joined(&self, value: &Value, rest: &[Value]) -> Result<Units, OutOfMemory>
        ensures { IfOk result (λ t. t ≡ spec.log_texts (value.now ∷ rest.now) self.now) }
    {
        let mut out = Vec::new(self.alloc());
        self.push_log_text(value, &mut out)?;
        self.push_spaced(rest, &mut out)?;
        Units::of(self.alloc(), out.as_slice())
    }

    // The texts of values, each after a space.
    fn push_spaced(&self, values: &[Value], out: &mut Vec<u16>) -> Result<(), OutOfMemory>
        ensures { OnOk result (out.new.items ≡ out.old.items
            ++ flat_map (spaced self.now) values.now) }
    {
        for value in values {
            push_ascii(b" ", out)?;
            self.push_log_text(value, out)?;
        }
        Ok(())
    }

    /// The text of the line of an exception that nothing caught: of an error its name and its message.
    pub fn uncaught_text(&self, value: &Value) -> Result<Units, OutOfMemory>
        ensures { IfOk result (λ t. t ≡ spec.uncaught_text self.now value.now) }
    {
        match value {
            Value::Object(at) => self.object_text(*at, value),
            Value::Undefined | Value::Null | Value::Bool(_) | Value::Num(_) | Value::Text(_) =>
                self.log_text(value),
        }
    }

    /// What a listener or a timer's function threw is put out as a line.
    pub fn put_uncaught(&mut self, end: &Signal) -> Result<(), OutOfMemory>
        ensures { OnOk result (Does (λ _. spec.put_uncaught end.now) self.old tt self.new) }
    {
        match end {
            Signal::Thrown(value) => {
                let text = self.uncaught_text(value)?;
                self.put_line(LineKind::Uncaught, text)
            }
            Signal::Value(_) | Signal::Return(_) | Signal::Break | Signal::Continue => Ok(()),
        }
    }

    fn object_text(&self, at: ObjId, value: &Value) -> Result<Units, OutOfMemory>
        ensures { IfOk result (λ t. t ≡ spec.text_by_class
            (class_at self.now at) self.now value.now) }
    {
        match self.class(at) {
            Class::Fault => self.error_text(value),
            Class::Plain
            | Class::List
            | Class::Page { .. }
            | Class::Native(_)
            | Class::Bound { .. }
            | Class::Math
            | Class::Window
            | Class::Node(_)
            | Class::Event(_) => self.log_text(value),
        }
    }

    fn error_text(&self, value: &Value) -> Result<Units, OutOfMemory>
        ensures { IfOk result (λ t. t ≡ spec.error_text self.now value.now) }
    {
        match value {
            Value::Object(at) => {
                let mut out = Vec::new(self.alloc());
                self.push_property(*at, b"name", &mut out)?;
                push_ascii(b": ", &mut out)?;
                self.push_property(*at, b"message", &mut out)?;
                Units::of(self.alloc(), out.as_slice())
            }
            Value::Undefined | Value::Null | Value::Bool(_) | Value::Num(_) | Value::Text(_) =>
                self.log_text(value),
        }
    }

    // The text of a property of an object, or of undefined.
    fn push_property(&self, at: ObjId, name: &[u8], out: &mut Vec<u16>) -> Result<(), OutOfMemory>
        ensures { OnOk result (out.new.items ≡ out.old.items
            ++ spec.log_text self.now (get_at self.now at name.now)) }
    {
        let name = ascii_text(self.alloc(), name)?;
        match self.get(at, &name) {
            Some(value) => self.push_log_text(value, out),
            None => self.push_log_text(&Value::Undefined, out),
        }
    }
}

// An object in a line.
fn push_object_text(class: &Class, out: &mut Vec<u16>) -> Result<(), OutOfMemory>
    ensures { OnOk result (out.new.items ≡ out.old.items
        ++ (codes "[object " ++ spec.class_name class.now ++ codes "]")) }
{
    push_ascii(b"[object ", out)?;
    push_ascii(class_name(class), out)?;
    push_ascii(b"]", out)
}

/// What a line calls an object of a class.
pub fn class_name(class: &Class) -> &'static [u8]
    ensures { result.now ≡ spec.class_name class.now }
{
    match class {
        Class::Plain => b"Object",
        Class::List => b"Array",
        Class::Page { .. } | Class::Native(_) | Class::Bound { .. } => b"Function",
        Class::Fault => b"Error",
        Class::Math => b"Math",
        Class::Window => b"Window",
        Class::Node(_) => b"Node",
        Class::Event(_) => b"Event",
    }
}

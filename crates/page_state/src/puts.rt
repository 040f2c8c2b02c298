//! Puts to references (ECMA-262 5.1 section 8.7.2), and to host names (DOM Level 2 Core).

ghost use Rattle.std.specs.Prelude.{◌≡◌, ◌<◌, OnOk, Some, length, true};
ghost use Rattle.js_values.specs.declared.ids.NodeId.{NodeId};
ghost use Rattle.js_values.specs.declared.value.Value.{Value};
ghost use Rattle.js_values.specs.declared.value.Value.TheVariants.{Text};
ghost use Rattle.dom_tree.specs.Node.{kind_at};
ghost use Rattle.page_host.specs.declared.host_name.HostName.TheVariants.{NodeValue, TextContent};
ghost use Rattle.page_host.specs.HostNames.{has_at_node};
ghost use Rattle.page_meaning.specs.Act.{Calls, nothing};
ghost use Rattle.page_meaning.specs.Classes.{class_at};
ghost use Rattle.page_meaning.specs.Convert.{to_text};
ghost use Rattle.page_meaning.specs.HostNames.{has_host_name};
ghost use Rattle.page_meaning.specs.HostPuts as spec;
ghost use Rattle.page_state.specs.Does.{Does, Gives, itself};
ghost use Rattle.page_state.specs.Puts.{fills, own_puts, takes};

use crate::fault::Fault;
use crate::sight::Sight;
use crate::state::State;
use dom_tree::Kind;
use js_core::{OutOfMemory, Units};
use js_values::{NodeId, ObjId, Throw, Value};
use object_heap::Class;
use page_host::HostName;

// What a put to a host name of a node does first.
#[derive(Clone, Copy)]
enum Taking {
    /// Nothing; nothing is converted either.
    Nothing,
    /// It may not be put.
    Refused,
    /// The text is put; that of null is the empty one.
    Text,
    /// The text is put, also that of null.
    Attribute,
    /// The text takes the place of an element's children; that of null is the empty one.
    Children,
}

impl State {
    /// A reference to a property takes the value.
    pub fn put_member(&mut self, base: &Value, name: &Units, value: Value) -> Result<Value, Fault>
        ensures { Gives itself (λ calls. spec.put_member calls base.now name.now value) self.old
            self.new result }
    {
        match base {
            Value::Object(at) => match HostName::of(name) {
                None => self.put_in(*at, name, value),
                Some(host) => self.put_named(*at, name, host, value),
            },
            _ => Err(self.raise(Throw::CannotSet)),
        }
    }

    // The same at an object, of a host name.
    fn put_named(
        &mut self,
        at: ObjId,
        name: &Units,
        host: HostName,
        value: Value,
    ) -> Result<Value, Fault>
        ensures { Gives itself (λ calls. spec.put_named calls at name.now value (Some host))
            self.old self.new result }
    {
        match self.sight(at, name, host) {
            Sight::Nothing | Sight::Held => self.put_in(at, name, value),
            Sight::Hosted(_) => self.own_put(at, host, &value),
        }
    }

    // An object that shows a host name takes it, where it is its own.
    fn own_put(&mut self, at: ObjId, host: HostName, value: &Value) -> Result<Value, Fault>
        ensures { Gives itself (λ calls. own_puts calls at host value.now
            (has_host_name self.old.host.nodes (class_at self.old at) host)) self.old self.new
            result }
    {
        if self.has_host_name(at, host) {
            self.host_put(at, host, value)
        } else {
            Err(self.raise(Throw::CannotSet))
        }
    }

    // An object takes a host name of its own.
    fn host_put(&mut self, at: ObjId, host: HostName, value: &Value) -> Result<Value, Fault>
        requires { has_host_name self.old.host.nodes (class_at self.old at) host ≡ true }
        ensures { Gives itself (λ calls. spec.host_puts calls host value.now
            (class_at self.old at)) self.old self.new result }
    {
        match self.class(at) {
            Class::Node(node) => {
                let node = *node;
                self.node_put(node, host, value)
            }
            _ => Err(self.raise(Throw::CannotSet)),
        }
    }

    // A node takes a host name of its own.
    fn node_put(&mut self, node: NodeId, host: HostName, value: &Value) -> Result<Value, Fault>
        requires { has_at_node self.old.host.nodes node host ≡ true }
        ensures { Gives itself (λ calls. spec.node_puts calls node host value.now
            (kind_at self.old.host.nodes node.0)) self.old self.new result }
    {
        match taking_of(host, &self.host().dom().content(node).kind) {
            Taking::Nothing => Ok(Value::Undefined),
            Taking::Refused => Err(self.raise(Throw::CannotSet)),
            Taking::Text => self.put_as_text(node, host, value),
            Taking::Attribute => self.put_as_attribute(node, host, value),
            Taking::Children => self.put_as_children(node, value),
        }
    }

    // The text is put, and that of null is the empty one.
    fn put_as_text(&mut self, node: NodeId, host: HostName, value: &Value) -> Result<Value, Fault>
        requires { has_at_node self.old.host.nodes node host ≡ true }
        ensures { Gives itself (λ calls. spec.put_text calls node host value.now) self.old
            self.new result }
    {
        let text = self.text_or_empty(value)?;
        self.put_text(node, host, text)?;
        Ok(Value::Undefined)
    }

    // The text is put.
    fn put_as_attribute(
        &mut self,
        node: NodeId,
        host: HostName,
        value: &Value,
    ) -> Result<Value, Fault>
        requires { has_at_node self.old.host.nodes node host ≡ true }
        ensures { Gives itself (λ calls. spec.put_attribute calls node host value.now) self.old
            self.new result }
    {
        let text = self.text_put(value)?;
        self.put_text(node, host, text)?;
        Ok(Value::Undefined)
    }

    // The text takes the place of an element's children.
    fn put_as_children(&mut self, node: NodeId, value: &Value) -> Result<Value, Fault>
        requires { node.0 < length self.old.host.nodes }
        ensures { Gives itself (λ calls. fills calls node value.now) self.old self.new result }
    {
        let text = self.text_or_empty(value)?;
        self.remove_children(node);
        self.fill(node, &text)?;
        Ok(Value::Undefined)
    }

    // The text of what is put; null is the empty one.
    fn text_or_empty(&mut self, value: &Value) -> Result<Units, Fault>
        ensures text { Gives Text (λ calls. spec.text_or_empty calls value.now) self.old self.new
            result }
        ensures same { OnOk result (self.new ≡ self.old) }
    {
        match value {
            Value::Null => Ok(Units::of(self.alloc(), &[])?),
            _ => self.text_put(value),
        }
    }

    // The text of what is put. A conversion that ends well changes nothing.
    fn text_put(&mut self, value: &Value) -> Result<Units, Fault>
        ensures text { Gives Text (λ calls. to_text calls value.now) self.old self.new result }
        ensures same { OnOk result (self.new ≡ self.old) }
    {
        self.to_text(value)
    }

    // A text node for the text becomes the last child; none does for the empty one.
    fn fill(&mut self, node: NodeId, text: &Units) -> Result<(), OutOfMemory>
        requires { node.0 < length self.old.host.nodes }
        ensures { OnOk result (Does (λ _. spec.fill node text.now) self.old nothing self.new) }
    {
        if text.as_slice().is_empty() {
            return Ok(());
        }
        let child = NodeId(self.host().dom().count());
        self.make_text(text)?;
        let _answer = self.insert_before(node, child, None);
        Ok(())
    }
}

// What a node of the kind does first where the host name, which it has, is put.
fn taking_of(host: HostName, kind: &Kind) -> Taking
    ensures { (calls : Calls) (k : NodeId) (v : Value) → spec.node_puts calls k host v kind.now
        ≡ takes calls k host v result }
{
    match host {
        HostName::Id | HostName::ClassName => Taking::Attribute,
        HostName::Value | HostName::Data => Taking::Text,
        HostName::NodeValue => value_taking(kind),
        HostName::TextContent => content_taking(kind),
        _ => Taking::Refused,
    }
}

fn value_taking(kind: &Kind) -> Taking
    ensures { (calls : Calls) (k : NodeId) (v : Value) → spec.node_puts calls k NodeValue v kind.now
        ≡ takes calls k NodeValue v result }
{
    match kind {
        Kind::Text(_) | Kind::Comment(_) => Taking::Text,
        Kind::Document | Kind::Element(_) => Taking::Nothing,
    }
}

fn content_taking(kind: &Kind) -> Taking
    ensures { (calls : Calls) (k : NodeId) (v : Value) → spec.put_content calls k v kind.now
        ≡ takes calls k TextContent v result }
{
    match kind {
        Kind::Text(_) | Kind::Comment(_) => Taking::Text,
        Kind::Element(_) => Taking::Children,
        Kind::Document => Taking::Nothing,
    }
}

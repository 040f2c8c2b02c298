//! Which built-in function of nodes and events does what.

ghost use Rattle.std.specs.Prelude.{◌≡◌};
ghost use Rattle.page_meaning.specs.NodeRows.{node_row};
ghost use Rattle.page_state.specs.Does.{Gives, itself};

use crate::{attributes, events, nodes};
use js_values::{BuiltIn, Throw, Value};
use page_state::{Fault, State};

/// What a built-in function does when it is called with `this` and the arguments: its value, or what it throws.
pub fn row(state: &mut State, which: BuiltIn, this: &Value, args: &[Value]) -> Result<Value, Fault>
    ensures { Gives itself (λ calls. node_row calls which this.now args.now) state.old state.new
        result }
{
    match which {
        BuiltIn::NodePrototypeInsertBefore => nodes::insert_before(state, this, args),
        BuiltIn::NodePrototypeReplaceChild => nodes::replace_child(state, this, args),
        BuiltIn::NodePrototypeRemoveChild => nodes::remove_child(state, this, args),
        BuiltIn::NodePrototypeAppendChild => nodes::append_child(state, this, args),
        BuiltIn::NodePrototypeHasChildNodes => nodes::has_child_nodes(state, this),
        BuiltIn::NodePrototypeGetAttribute => attributes::get(state, this, args),
        BuiltIn::NodePrototypeSetAttribute => attributes::set(state, this, args),
        BuiltIn::NodePrototypeRemoveAttribute => attributes::remove(state, this, args),
        BuiltIn::NodePrototypeHasAttribute => attributes::has(state, this, args),
        BuiltIn::NodePrototypeAddEventListener => events::add_listener(state, this, args),
        BuiltIn::NodePrototypeRemoveEventListener => events::remove_listener(state, this, args),
        BuiltIn::NodePrototypeGetElementById => nodes::get_by_id(state, this, args),
        BuiltIn::NodePrototypeCreateElement => nodes::create_element(state, this, args),
        BuiltIn::NodePrototypeCreateTextNode => nodes::create_text(state, this, args),
        BuiltIn::NodePrototypeCreateComment => nodes::create_comment(state, this, args),
        BuiltIn::NodePrototypeCreateEvent => events::create_event(state, this, args),
        BuiltIn::EventPrototypeInitEvent => events::init_event(state, this, args),
        BuiltIn::EventPrototypeStopPropagation => events::stop_propagation(state, this),
        BuiltIn::EventPrototypePreventDefault => events::prevent_default(state, this),
        _ => Err(state.raise(Throw::WrongArgument)),
    }
}

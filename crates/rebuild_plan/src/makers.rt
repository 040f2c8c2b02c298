//! What makes things.

ghost use Rattle.std.specs.Prelude.{◌≡◌, IfOk};
ghost use Rattle.heap_walker.specs.Things.{needs_of};
ghost use Rattle.dom_tree.specs.Node.{kind_at};
ghost use Rattle.rebuild_plan.specs.Compact as saved;
ghost use Rattle.rebuild_plan.specs.Nodes.{node_maker as spec_maker};
ghost use Rattle.rebuild_plan.specs.declared.statement.Maker.TheVariants.{Func};

use crate::moved::{moved, moved_needs, moved_proto, moved_value, moved_values};
use crate::statement::Maker;
use code_table::FunctionCode;
use dom_tree::Kind;
use heap_walker::{Walked, needs_of};
use js_core::{OutOfMemory, Units};
use js_values::{EnvId, ErrorKind, NodeId, ObjId};
use object_heap::Class;
use page_state::{State, error_prototype};

/// What makes an object.
pub fn maker_of(state: &State, walked: &Walked, at: ObjId) -> Result<Maker, OutOfMemory>
    ensures { IfOk result (λ m. m ≡ saved.maker_at state.now walked.now.things.keys at.0) }
{
    match state.class(at) {
        Class::List => Ok(Maker::List),
        Class::Fault => Ok(Maker::Fault(kind_of(state.proto(at)))),
        Class::Page { code, env } => function_maker(state, walked, code, *env),
        Class::Bound { target, this, args } => Ok(Maker::Bind {
            target: moved(walked, *target),
            this: moved_value(walked, this)?,
            args: moved_values(state.alloc(), walked, args.as_slice())?,
        }),
        Class::Node(node) => node_maker(state, walked, state.proto(at), *node),
        Class::Event(_) => Ok(Maker::Event),
        Class::Plain | Class::Native(_) | Class::Math | Class::Window => {
            Ok(Maker::Plain(moved_proto(walked, state.proto(at))))
        }
    }
}

// What makes a function.
fn function_maker(
    state: &State,
    walked: &Walked,
    code: &FunctionCode,
    env: Option<EnvId>,
) -> Result<Maker, OutOfMemory>
    ensures { IfOk result (λ m. m ≡ Func code.now
        (saved.moved_needs walked.now.things.keys (needs_of state.now env code.now))) }
{
    let needs = needs_of(state, code, env)?;
    Ok(Maker::Func {
        code: code.clone()?,
        needs: moved_needs(state.alloc(), walked, &needs)?,
    })
}

// The kind of errors with this prototype.
fn kind_of(proto: Option<ObjId>) -> ErrorKind
    ensures { result ≡ saved.kind_of proto }
{
    match proto {
        Some(at) => kind_at(at),
        None => ErrorKind::Plain,
    }
}

fn kind_at(at: ObjId) -> ErrorKind
    ensures { result ≡ saved.kind_at at.0 }
{
    if at == error_prototype(ErrorKind::Type) {
        ErrorKind::Type
    } else if at == error_prototype(ErrorKind::Range) {
        ErrorKind::Range
    } else if at == error_prototype(ErrorKind::Reference) {
        ErrorKind::Reference
    } else {
        ErrorKind::Plain
    }
}

// What makes a node; one that is not there stands for a comment without text.
fn node_maker(
    state: &State,
    walked: &Walked,
    proto: Option<ObjId>,
    node: NodeId,
) -> Result<Maker, OutOfMemory>
    ensures { IfOk result (λ m. m ≡ spec_maker walked.now.things.keys proto
        (kind_at state.now.host.nodes node.0)) }
{
    let dom = state.host().dom();
    if node.0 >= dom.count() {
        return Ok(Maker::Comment(Units::of(state.alloc(), &[])?));
    }
    kind_maker(walked, proto, &dom.content(node).kind)
}

fn kind_maker(walked: &Walked, proto: Option<ObjId>, kind: &Kind) -> Result<Maker, OutOfMemory>
    ensures { IfOk result (λ m. m ≡ spec_maker walked.now.things.keys proto kind.now) }
{
    match kind {
        Kind::Document => Ok(Maker::Plain(moved_proto(walked, proto))),
        Kind::Element(name) => Ok(Maker::Element(name.clone()?)),
        Kind::Text(text) => Ok(Maker::Text(text.clone()?)),
        Kind::Comment(text) => Ok(Maker::Comment(text.clone()?)),
    }
}

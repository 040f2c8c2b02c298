//! The listeners of each node.

ghost use Rattle.std.specs.Prelude.{◌≡◌, ◌∷◌, ◌++◌, ℕ, [], IfOk, OnOk};
ghost use Rattle.heap_walker.specs.Heard as spec;
ghost use Rattle.heap_walker.specs.Things.{heard_at};

use js_core::OutOfMemory;
use js_values::NodeId;
use page_host::Listener;
use page_state::State;
use std::alloc::Global;
use std::marker::Model;

/// Listeners, which contracts see as their list.
#[derive(Drop)]
pub struct Group {
    items: Vec<Listener>,
}

impl Model for Group {
    ghost use Rattle.std.specs.Prelude.{List};
    ghost use Rattle.page_host.specs.declared.listener.Listener.{Listener};

    ghost Value = { List Listener };

    ghost view = { λ g. g.items.items };
}

impl Group {
    // One more, which is the last.
    fn push(&mut self, listener: Listener) -> Result<(), OutOfMemory>
        ensures { OnOk result (self.new ≡ self.old ++ listener ∷ []) }
    {
        self.items.push(listener)?;
        Ok(())
    }
}

/// The listeners of each node, in the order in which they were added: so each is looked for once, and not for each node again.
#[derive(Drop)]
pub struct Heard {
    groups: Vec<Group>,
}

impl Model for Heard {
    ghost use Rattle.std.specs.Prelude.{List};
    ghost use Rattle.page_host.specs.declared.listener.Listener.{Listener};

    ghost Value = { List (List Listener) };

    ghost view = { λ h. h.groups.items };
}

impl Heard {
    /// The listeners of a page.
    pub fn of_page(state: &State) -> Result<Heard, OutOfMemory>
        ensures { IfOk result (λ heard. spec.AreHeard state.now.host.listeners heard) }
    {
        Heard::of(state.alloc(), state.host().listeners())
    }

    // These listeners by their nodes.
    fn of(alloc: Global, listeners: &[Listener]) -> Result<Heard, OutOfMemory>
        ensures { IfOk result (λ heard. spec.AreHeard listeners.now heard) }
    {
        let mut heard = Heard {
            groups: Vec::new(alloc),
        };
        let mut rest = listeners;
        while let [listener, after @ ..] = rest {
            heard.push(alloc, listener)?;
            rest = after;
        }
        Ok(heard)
    }

    // One more, the last of its node.
    fn push(&mut self, alloc: Global, listener: &Listener) -> Result<(), OutOfMemory>
        ensures { OnOk result ((k : ℕ) → spec.group_at self.new k
            ≡ spec.with_heard k (spec.group_at self.old k) listener.now) }
    {
        let place = listener.node.0;
        reach(alloc, &mut self.groups, place)?;
        self.groups[place as usize].push(listener.clone()?)?;
        Ok(())
    }

    /// The listeners of the node, without memory.
    pub fn at(&self, node: NodeId) -> &[Listener]
        ensures { result.now ≡ spec.group_at self.now node.0 }
    {
        match self.groups.get(node.0 as usize) {
            Some(group) => group.items.as_slice(),
            None => &[],
        }
    }
}

// There is a list at the place.
fn reach(alloc: Global, groups: &mut Vec<Group>, place: u64) -> Result<(), OutOfMemory>
    ensures { OnOk result (spec.Reaches groups.old.items groups.new.items place) }
{
    while groups.len() as u64 <= place {
        groups.push(Group {
            items: Vec::new(alloc),
        })?;
    }
    Ok(())
}

//! Listeners, timers and the clock of a page.

ghost use Rattle.std.specs.Prelude.{◌≡◌, ◌<◌, ◌^◌, ◌∷◌, [], IfOk, OnOk, is_some, length, option_map};
ghost use Rattle.page_host.specs.declared.path.Phase.TheVariants.{AtTarget};
ghost use Rattle.page_host.specs.Paths.{event_path, in_phase};
ghost use Rattle.page_host.specs.Steps.{clears, clock_at, fires, forgets, is_period, listens, next_timer};
ghost use Rattle.page_meaning.specs.Dispatch as dispatch;
ghost use Rattle.page_meaning.specs.Pages.{with_input};
ghost use Rattle.page_meaning.specs.Primitives.{changes_host};
ghost use Rattle.page_state.specs.Does.{Does};
ghost use Rattle.page_state.specs.Finding.{Finds, function_of};
ghost use Rattle.page_state.specs.Made.{IsStarted};

use crate::fault::Fault;
use crate::state::State;
use js_core::{OutOfMemory, Units};
use js_values::{NodeId, ObjId, Throw, Value};
use page_host::{HostName, Listener, Phase, Place};

// No number of the language is greater.
const TIME_LIMIT: u64 = 9_007_199_254_740_991;

impl State {
    /// The value of the node becomes the text, where it is an input or a textarea.
    #[tactic(auto, using(crate::proofs::HostSteps::no_input))]
    pub fn set_input(&mut self, node: NodeId, text: Units)
        ensures { self.new ≡ with_input text node self.old }
    {
        if self.host.has_name(node, HostName::Value) {
            self.host.set_value(node, text);
        }
    }

    /// The function that a value is. Anything else is a wrong argument.
    pub fn callback(&mut self, value: &Value) -> Result<ObjId, Fault>
        ensures { Finds (function_of self.old value.now) self.old self.new result }
    {
        if let Value::Object(at) = value {
            if self.is_function(value) {
                return Ok(*at);
            }
        }
        Err(self.raise(Throw::WrongArgument))
    }

    /// A listener is added, where it is not there yet. What cannot be called is not.
    #[tactic(auto, using(crate::proofs::HostSteps::none_called, crate::proofs::HostSteps::no_listener, crate::proofs::HostSteps::callable_step))]
    pub fn listen(&mut self, listener: Listener) -> Result<(), OutOfMemory>
        ensures { OnOk result (Does (λ _. changes_host (listens listener)) self.old tt self.new) }
    {
        if !self.is_function(&Value::Object(listener.call)) {
            return Ok(());
        }
        if listener.node.0 >= self.host.dom().count() {
            return Ok(());
        }
        self.host.listen(listener)
    }

    /// A listener is removed.
    pub fn forget(&mut self, listener: &Listener)
        ensures { Does (λ _. changes_host (forgets listener.now)) self.old tt self.new }
    {
        self.host.forget(listener);
    }

    /// Whether the listener is there.
    pub fn is_registered(&self, listener: &Listener) -> bool
        ensures { result ≡ dispatch.is_registered listener.now self.now }
    {
        self.host.is_registered(listener)
    }

    /// The way of an event at the node.
    #[tactic(auto, using(crate::proofs::HostSteps::way_of_none))]
    pub fn path(&self, node: NodeId, bubbles: bool) -> Result<Vec<Place>, OutOfMemory>
        ensures { IfOk result (λ places. places.items ≡ event_path self.now.host.nodes node
            bubbles) }
    {
        if node.0 >= self.host.dom().count() {
            return self.alone(node);
        }
        self.host.path(self.alloc(), node, bubbles)
    }

    // The way to a node that is not there, which no node stands above.
    fn alone(&self, node: NodeId) -> Result<Vec<Place>, OutOfMemory>
        ensures { IfOk result (λ places. places.items ≡ in_phase AtTarget node ∷ []) }
    {
        let mut places = Vec::new(self.alloc());
        places.push(Place {
            node,
            phase: Phase::AtTarget,
        })?;
        Ok(places)
    }

    /// Starts a timer and gives its id, or `None` exactly where as many are live as may be. What cannot be called, and a time past those of
    /// the language, counts as want of memory.
    #[tactic(auto, unfolding(page_host::specs::Steps::time_limit), using(crate::proofs::HostSteps::timer_started))]
    pub fn start_timer(
        &mut self,
        delay: u64,
        period: Option<u64>,
        call: ObjId,
    ) -> Result<Option<u32>, OutOfMemory>
        ensures { IfOk result (λ id. IsStarted delay period call self.old id self.new) }
    {
        if self.host.is_full() {
            return Ok(None);
        }
        if delay > TIME_LIMIT || !is_period(period) || !self.is_function(&Value::Object(call)) {
            return Err(OutOfMemory);
        }
        Ok(Some(self.host.start(delay, period, call)?))
    }

    /// Removes the timer with this id; where none is live nothing changes.
    pub fn clear_timer(&mut self, id: u64)
        ensures { Does (λ _. changes_host (clears id)) self.old tt self.new }
    {
        self.host.clear(id);
    }

    /// Whether a timer is due up to the moment.
    #[tactic(auto, using(crate::proofs::HostSteps::is_due_at))]
    pub fn is_timer_due(&self, moment: u64) -> bool
        ensures { result ≡ is_some (next_timer self.now.host moment) }
    {
        self.host.is_due(moment)
    }

    /// The timer that is due first up to the moment comes due, and its function is given.
    pub fn fire_timer(&mut self, moment: u64) -> Option<ObjId>
        requires { moment < 2 ^ 60 }
        ensures due { result ≡ option_map (λ t. t.call) (next_timer self.old.host moment) }
        ensures fired { Does (λ _. changes_host (fires moment)) self.old tt self.new }
    {
        self.host.fire(moment)
    }

    /// Time passes up to the moment.
    pub fn set_clock(&mut self, moment: u64)
        requires { moment < 2 ^ 60 }
        ensures { Does (λ _. changes_host (clock_at moment)) self.old tt self.new }
    {
        self.host.set_clock(moment);
    }
}

#[tactic(auto, unfolding(page_host::specs::Steps::time_limit))]
fn is_period(period: Option<u64>) -> bool
    ensures { result ≡ is_period period }
{
    match period {
        None => true,
        Some(n) => n >= 1 && n <= TIME_LIMIT,
    }
}

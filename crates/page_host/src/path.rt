//! The way of an event through the nodes.

ghost use Rattle.std.specs.Prelude.{◌≡◌};
ghost use Rattle.page_host.specs.Paths.{phase_number};

use js_values::NodeId;

/// On which part of its way an event is (DOM Level 2 Events, interface Event).
#[derive(Clone, Copy)]
pub enum Phase {
    /// On the way down to the target.
    Capturing,
    AtTarget,
    /// On the way up.
    Bubbling,
}

/// A place of an event's way.
#[derive(Clone, Copy)]
pub struct Place {
    pub node: NodeId,
    pub phase: Phase,
}

impl Phase {
    /// The number of the phase.
    pub fn number(self) -> u8
        ensures { result ≡ phase_number self }
    {
        match self {
            Phase::Capturing => 1,
            Phase::AtTarget => 2,
            Phase::Bubbling => 3,
        }
    }
}

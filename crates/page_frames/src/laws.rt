//! What holds of places and frames.

ghost use Rattle.page_frames.specs.Laws.{LoopsTurn, PartsArePaid, StacksFall, StacksFollow, StepsPay};
ghost use Rattle.page_frames.specs.RestDeliver.{RunsInTurn};
ghost use Rattle.page_frames.specs.Start.{BeginsByKind};
ghost use Rattle.page_frames.specs.declared.frame.DeliverFrame.{DeliverFrame};
ghost use Rattle.page_host.specs.declared.listener.Listener.{Listener};
ghost use Rattle.page_meaning.specs.Act.{Calls};
ghost use Rattle.page_meaning.specs.Store.{Store};
ghost use Rattle.std.specs.Prelude.{List, ℕ};

/// The kind of a node says how it begins.
#[tactic(auto, using(crate::proofs::Starts::begins_by_kind))]
pub fn law_starts()
    ensures { BeginsByKind }
{}

/// A loop is its test, and then a turn and the loop again.
pub fn law_loops()
    ensures { LoopsTurn }
{}

/// What waits can pay for the parts that it may run, and a step pays for what a node may run.
#[tactic(auto, using(crate::proofs::Weights::parts_are_paid, crate::proofs::Weights::node_paid))]
pub fn law_weights()
    ensures parts { PartsArePaid }
    ensures steps { StepsPay }
{}

/// A step keeps what a stack of frames has yet to do, and makes it lighter.
#[tactic(auto, using(crate::proofs::Stacks::stacks_follow, crate::proofs::Stacks::stacks_fall))]
pub fn law_stacks()
    ensures follow { StacksFollow }
    ensures fall { StacksFall }
{}

/// A dispatch that waits goes on with the listeners that are left.
#[tactic(auto, using(crate::proofs::Delivering::runs_in_turn))]
pub fn law_dispatches()
    ensures { (calls : Calls) (f : DeliverFrame) (l : Listener) (ls : List Listener) (s : Store)
        (n : ℕ) → RunsInTurn calls f l ls s n }
{}

//! Turns of index loops, each of which takes a step.

ghost use Rattle.page_state.specs.Turns.{Turned};

use crate::fault::Fault;

/// Why what takes steps gave no value.
#[derive(Drop)]
pub enum Halt {
    /// It threw, or memory ran out.
    Fault(Fault),
    /// A step was to be taken, and none was left.
    Stopped,
}

impl From<Fault> for Halt {
    ghost use Rattle.std.specs.Prelude.{◌≡◌};
    ghost use Rattle.page_state.specs.declared.turns.Halt.TheVariants as halt;

    ghost from_gives = { λ f e. e ≡ halt.Fault f };

    fn from(fault: Fault) -> Halt {
        Halt::Fault(fault)
    }
}

impl From<js_core::OutOfMemory> for Halt {
    ghost use Rattle.std.specs.Prelude.{◌≡◌};
    ghost use Rattle.js_core.specs.declared.memory.Failure.TheVariants as fault;
    ghost use Rattle.page_state.specs.declared.turns.Halt.TheVariants as halt;

    ghost from_gives = { λ _ e. e ≡ halt.Fault fault.OutOfMemory };

    fn from(_error: js_core::OutOfMemory) -> Halt {
        Halt::Fault(Fault::OutOfMemory)
    }
}

/// A turn takes its step, where one is left.
pub fn take_turn(steps: &mut u64) -> Result<(), Halt>
    ensures { Turned steps.old steps.new result }
{
    if *steps == 0 {
        return Err(Halt::Stopped);
    }
    *steps -= 1;
    Ok(())
}

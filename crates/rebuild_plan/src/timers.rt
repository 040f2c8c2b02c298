//! The timers.

ghost use Rattle.std.specs.Prelude.{◌≡◌, ◌++◌, ◌∷◌, [], OnOk};
ghost use Rattle.rebuild_plan.specs.Plan as spec;
ghost use Rattle.rebuild_plan.specs.Timers as saved;

use crate::marks::push_clears;
use crate::moved::moved;
use crate::statement::Rebuild;
use heap_walker::{Walked, greatest};
use js_core::OutOfMemory;
use page_state::State;
use timer_queue::Live;

/// The timers are started again, with what is left of their times.
pub fn push_timers(
    state: &State,
    walked: &Walked,
    plan: &mut Vec<Rebuild>,
) -> Result<(), OutOfMemory>
    ensures { OnOk result (plan.new.items ≡ plan.old.items ++ spec.timers
        (saved.moved_timers walked.now.things.keys state.now.host.clock state.now.host.timers)) }
{
    let timers = state.host().timers();
    let count = greatest(timers);
    push_fillers(count, plan)?;
    push_starts(walked, state.host().clock(), timers, plan)?;
    push_clears(state.alloc(), count, timers, plan)?;
    Ok(())
}

// Timers of which the ids are 1, 2 and so on.
fn push_fillers(count: u64, plan: &mut Vec<Rebuild>) -> Result<(), OutOfMemory>
    ensures { OnOk result (plan.new.items ≡ plan.old.items ++ spec.fillers count) }
{
    let mut left = count;
    while left > 0 {
        plan.push(Rebuild::Filler)?;
        left -= 1;
    }
    Ok(())
}

fn push_starts(
    walked: &Walked,
    clock: u64,
    timers: &[Live],
    plan: &mut Vec<Rebuild>,
) -> Result<(), OutOfMemory>
    ensures { OnOk result (plan.new.items ≡ plan.old.items ++ spec.starts
        (saved.moved_timers walked.now.things.keys clock timers.now)) }
{
    let mut rest = timers;
    while let [timer, after @ ..] = rest {
        push_start(walked, clock, timer, plan)?;
        rest = after;
    }
    Ok(())
}

// The id of a timer is free, and the timer is started.
fn push_start(
    walked: &Walked,
    clock: u64,
    timer: &Live,
    plan: &mut Vec<Rebuild>,
) -> Result<(), OutOfMemory>
    ensures { OnOk result (plan.new.items ≡ plan.old.items ++ spec.starts
        (saved.moved_timer walked.now.things.keys clock timer.now ∷ [])) }
{
    plan.push(Rebuild::Clear { id: timer.id })?;
    let call = moved(walked, timer.call);
    let rest = timer.due.saturating_sub(clock);
    let start = match timer.period {
        None => Rebuild::Timeout { call, rest },
        Some(period) => Rebuild::Interval { call, rest, period },
    };
    plan.push(start)?;
    Ok(())
}

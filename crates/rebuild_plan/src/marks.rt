//! The ids that no timer has.

ghost use Rattle.std.specs.Prelude.{◌≡◌, ◌++◌, ◌+◌, ◌∷◌, [], IfOk, OnOk, length};
ghost use Rattle.rebuild_plan.specs.Marks as spec;
ghost use Rattle.rebuild_plan.specs.Plan as plans;

use crate::statement::Rebuild;
use js_core::OutOfMemory;
use std::alloc::Global;
use timer_queue::Live;

/// Each id from 1 on, so many of them, is cleared if it is that of no timer. The work is in proportion to the ids and the timers.
pub fn push_clears(
    alloc: Global,
    count: u64,
    timers: &[Live],
    plan: &mut Vec<Rebuild>,
) -> Result<(), OutOfMemory>
    ensures { OnOk result (plan.new.items ≡ plan.old.items ++ plans.clears count 1 timers.now) }
{
    let mut marks = unset(alloc, count)?;
    set_all(&mut marks, timers);
    push_unset(marks.as_slice(), plan)?;
    Ok(())
}

// So many marks.
fn unset(alloc: Global, count: u64) -> Result<Vec<bool>, OutOfMemory>
    ensures { IfOk result (λ marks. marks.items ≡ spec.no_marks count) }
{
    let mut marks = Vec::new(alloc);
    let mut left = count;
    while left > 0 {
        marks.push(false)?;
        left -= 1;
    }
    Ok(marks)
}

// The marks of these timers are set.
fn set_all(marks: &mut Vec<bool>, timers: &[Live])
    ensures { spec.AreSet marks.old.items marks.new.items timers.now }
{
    let mut rest = timers;
    while let [timer, after @ ..] = rest {
        set(marks, timer);
        rest = after;
    }
}

fn set(marks: &mut Vec<bool>, timer: &Live)
    ensures { spec.AreSet marks.old.items marks.new.items (timer.now ∷ []) }
{
    let id = timer.id as usize;
    if id > 0 && id <= marks.len() {
        marks[id - 1] = true;
    }
}

// Each id that is not marked is cleared.
fn push_unset(marks: &[bool], plan: &mut Vec<Rebuild>) -> Result<(), OutOfMemory>
    ensures { OnOk result (plan.new.items ≡ plan.old.items ++ spec.clear_all 1 marks.now) }
{
    let mut id = 0;
    let mut rest = marks;
    while let [live, after @ ..] = rest {
        id = next_id(id)?;
        push_clear(*live, id, plan)?;
        rest = after;
    }
    Ok(())
}

// No memory holds the marks of so many ids that there would be none.
fn next_id(id: u32) -> Result<u32, OutOfMemory>
    ensures { IfOk result (λ next. next ≡ id + 1) }
{
    if id == u32::MAX {
        return Err(OutOfMemory);
    }
    Ok(id + 1)
}

fn push_clear(live: bool, id: u32, plan: &mut Vec<Rebuild>) -> Result<(), OutOfMemory>
    ensures { OnOk result (plan.new.items ≡ plan.old.items ++ spec.clear_unless live id) }
{
    if !live {
        plan.push(Rebuild::Clear { id })?;
    }
    Ok(())
}

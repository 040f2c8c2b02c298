//! Marks of ids: each says whether the id after its place is live.

ghost use Rattle.std.specs.Prelude.{◌≡◌, ◌≤◌, ℕ, IfOk, List, false, length};
ghost use Rattle.std.specs.List.{slice_index_or};
ghost use Rattle.timer_queue.specs.Marks.{AreMarks, IsFirstFree};
ghost use Rattle.timer_queue.specs.Timers.{cleared};
ghost use Rattle.timer_queue.specs.declared.timer.Live.{Live};

use js_core::OutOfMemory;

/// The place of the first mark that is not set, where so many of the first ones are. Marks that are added are not set.
pub fn free_place(marks: &mut Vec<bool>, full: usize) -> Result<usize, OutOfMemory>
    requires { full ≤ length marks.old.items }
    ensures free { IfOk result (λ place. IsFirstFree marks.new.items full place) }
    ensures same { (k : ℕ) → slice_index_or marks.new.items k false
        ≡ slice_index_or marks.old.items k false }
    ensures longer { length marks.old.items ≤ length marks.new.items }
{
    let mut place = full;
    while place < marks.len() && marks[place] {
        place += 1;
    }
    if place == marks.len() {
        marks.push(false)?;
    }
    Ok(place)
}

/// The id is live no longer. The answer is how many of the first marks are still known to be set.
pub fn unmark(marks: &mut Vec<bool>, full: usize, id: u64) -> usize
    ensures { (ts : List Live) → AreMarks ts marks.old.items full
        → AreMarks (cleared ts id) marks.new.items result }
{
    if id == 0 || id > marks.len() as u64 {
        return full;
    }
    let place = (id - 1) as usize;
    marks[place] = false;
    full.min(place)
}

//! What the calls on the queue keep, and what timers do over time.

ghost use Rattle.std.specs.Prelude.{ℕ, List};
ghost use Rattle.timer_queue.specs.Laws.{AreInOrder, IsLeastFree, KeepsDistinctIds, TakesTheFirings};
ghost use Rattle.timer_queue.specs.Timely.{TimersStayTimely};
ghost use Rattle.timer_queue.specs.Timers.{least_free};
ghost use Rattle.timer_queue.specs.Worked.{IsWorked};
ghost use Rattle.timer_queue.specs.declared.timer.Live.{Live};

/// The laws of ids.
pub fn law_ids_are_distinct()
    // No call makes two live timers of one id.
    ensures distinct { (ts : List Live) → KeepsDistinctIds ts }
    // A new timer gets the least id above 0 that is not live.
    ensures least { (ts : List Live) → IsLeastFree ts (least_free ts) }
{}

/// The laws of due timers.
pub fn law_takings_are_firings()
    // What is due goes by due time and then by start.
    ensures order { (ts : List Live) (moment : ℕ) → AreInOrder ts moment }
    // Taking until none is due takes each timer as often as it fires, in the order of time.
    ensures takings { (ts : List Live) (moment most : ℕ) → TakesTheFirings ts moment most }
{}

/// The law of times.
pub fn law_timers_stay_timely()
    // Due times are not before the clock, periods are at least 1, and ids from 1 to the limit, whatever is done.
    ensures { TimersStayTimely }
{}

/// The worked queue is as it says after each call.
#[tactic(auto, using(crate::proofs::Worked::is_worked))]
pub fn law_worked_queue()
    ensures { IsWorked }
{}

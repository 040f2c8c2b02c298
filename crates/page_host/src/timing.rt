//! Timers of a page, and its clock.

ghost use Rattle.std.specs.Prelude.{◌≡◌, ◌&&◌, ◌<◌, ◌≤◌, ◌^◌, is_none, length, nat_le, not, option_map, true, IfOk, OnOk, OnErr};
ghost use Rattle.std.specs.List.{list_any};
ghost use Rattle.timer_queue.specs.Timers.{due_timers, first, is_due, least_free, timer_limit};
ghost use Rattle.page_host.specs.Steps.{after_host, clears, clock_at, fires, is_period, next_timer, starts, time_limit};

use crate::host::PageHost;
use js_core::{OutOfMemory, TIMER_LIMIT};
use js_values::ObjId;
use timer_queue::Live;

impl PageHost {
    /// Whether as many timers are live as may be.
    pub fn is_full(&self) -> bool
        ensures { result ≡ nat_le timer_limit (length self.now.timers) }
    {
        self.queue.live().len() >= TIMER_LIMIT
    }

    /// Starts a timer, due after the delay and then, if it has a period, again after each period. The answer is its id, the least above
    /// 0 that is not live. After an error nothing has changed.
    pub fn start(
        &mut self,
        delay: u64,
        period: Option<u64>,
        call: ObjId,
    ) -> Result<u32, OutOfMemory>
        requires few { length self.old.timers < timer_limit }
        requires delay { delay ≤ time_limit }
        requires period { is_period period ≡ true }
        ensures id { IfOk result (λ id. id ≡ least_free self.old.timers) }
        ensures ok { OnOk result (self.new ≡ after_host self.old (starts delay period call)) }
        ensures err { OnErr result (self.new ≡ self.old) }
    {
        self.queue.start(self.clock, delay, period, call)
    }

    /// Removes the timer with this id; where none is live nothing changes. No memory.
    pub fn clear(&mut self, id: u64)
        ensures { self.new ≡ after_host self.old (clears id) }
    {
        self.queue.clear(id);
    }

    /// Whether a timer is due at or before the moment.
    #[tactic(auto, using(crate::proofs::Times::none_due_first))]
    pub fn is_due(&self, moment: u64) -> bool
        ensures { is_none (next_timer self.now moment) ≡ not result }
    {
        has_due(self.queue.live(), moment)
    }

    /// The first timer that is due at or before the moment comes due: a timeout is removed, an interval is put at the end,
    /// due one period later, and the clock becomes the due time, where that is later. The answer is its function, or `None` exactly where
    /// no timer is due; then nothing has changed. No memory.
    pub fn fire(&mut self, moment: u64) -> Option<ObjId>
        requires { moment < 2 ^ 60 }
        ensures due { result ≡ option_map (λ t. t.call) (next_timer self.old moment) }
        ensures fired { self.new ≡ after_host self.old (fires moment) }
    {
        self.queue.fire(&mut self.clock, moment)
    }

    /// Time passes up to the moment, where that is not before the clock and no timer is due by then; else nothing changes. No memory.
    pub fn set_clock(&mut self, moment: u64)
        requires { moment < 2 ^ 60 }
        ensures { self.new ≡ after_host self.old (clock_at moment) }
    {
        if may_pass(self.queue.live(), self.clock, moment) {
            self.clock = moment;
        }
    }
}

// Whether the moment is not before the clock, and no timer is due by then.
#[tactic(auto, using(crate::proofs::Times::none_due_first))]
fn may_pass(timers: &[Live], clock: u64, moment: u64) -> bool
    ensures { result ≡ (nat_le clock moment && is_none (first (due_timers timers.now moment))) }
{
    clock <= moment && !has_due(timers, moment)
}

// Whether one of the timers is due at or before the moment.
fn has_due(timers: &[Live], moment: u64) -> bool
    ensures { result ≡ list_any (is_due moment) timers.now }
{
    timers.iter().any(|timer| timer.due <= moment)
}

//! The queue of live timers.

ghost use Rattle.std.specs.Prelude.{◌≡◌, ◌<◌, ◌^◌, [], length, option_map, unwrap_or, vec_capacity, IfOk, OnOk, OnErr, Some, true};
ghost use Rattle.timer_queue.specs.Laws.{HasDistinctIds};
ghost use Rattle.timer_queue.specs.Sound.{AreInRange};
ghost use Rattle.timer_queue.specs.Timers as spec;

use crate::ids::{free_place, unmark};
use crate::timer::Live;
use js_core::OutOfMemory;
use js_values::ObjId;
use std::alloc::Global;
use std::marker::Model;

/// The live timers of a page, which contracts see as their list in starting order.
#[derive(Drop)]
pub struct Queue {
    timers: Vec<Live>,
    /// Whether the id after each place is live.
    marks: Vec<bool>,
    /// So many of the first ids are live.
    full: usize,
}

impl Model for Queue {
    ghost use Rattle.std.specs.Prelude.{List};
    ghost use Rattle.timer_queue.specs.Sound.{IsSound};
    ghost use Rattle.timer_queue.specs.declared.timer.Live.{Live};

    ghost Value = { List Live };

    ghost view = { λ q. q.timers.items };

    ghost invariant = { λ q. IsSound q.timers.items q.marks.items q.full };
}

// The first of the timers that are due first.
fn earliest(timers: &[Live]) -> Option<Live>
    ensures { result ≡ spec.earliest timers.now }
{
    let mut place = timers.len();
    let mut found = None;
    while place > 0 {
        place -= 1;
        keep_earlier(&timers[place], &mut found);
    }
    found
}

// Keeps the timer, or what was found behind it, if that is due before it.
fn keep_earlier(timer: &Live, found: &mut Option<Live>)
    ensures { found.new ≡ Some (spec.earlier timer.now found.old) }
{
    match found {
        Some(other) if other.due < timer.due => {}
        _ => *found = Some(*timer),
    }
}

// The first of the timers that are due at or before a moment.
fn first_due(timers: &[Live], moment: u64) -> Option<Live>
    ensures { result ≡ spec.first (spec.due_timers timers.now moment) }
{
    match earliest(timers) {
        Some(timer) => {
            if timer.due <= moment {
                Some(timer)
            } else {
                None
            }
        }
        None => None,
    }
}

// Removes the timer with this id.
fn remove(timers: &mut Vec<Live>, id: u64)
    ensures removed { timers.new.items ≡ spec.cleared timers.old.items id }
    ensures capacity { vec_capacity timers.new ≡ vec_capacity timers.old }
{
    timers.retain(|timer| u64::from(timer.id) != id);
}

// Takes a timer out, and puts an interval at the end again.
fn take(timers: &mut Vec<Live>, timer: Live)
    requires live { spec.is_live timers.old.items timer.id ≡ true }
    requires due { timer.due < 2 ^ 60 }
    requires period { unwrap_or timer.period 0 < 2 ^ 60 }
    ensures { timers.new.items ≡ spec.after_taking timers.old.items timer }
{
    remove(timers, u64::from(timer.id));
    match timer.period {
        Some(period) => timers.push_reserved(Live {
            due: timer.due + period,
            ..timer
        }),
        None => {}
    }
}

impl Queue {
    /// A queue without timers, which takes no memory.
    pub fn new(alloc: Global) -> Queue
        ensures { result ≡ [] }
    {
        Queue {
            timers: Vec::new(alloc),
            marks: Vec::new(alloc),
            full: 0,
        }
    }

    /// The live timers in starting order. Their ids are distinct and from 1 to 65,536, and periods are at least 1.
    pub fn live(&self) -> &[Live]
        ensures timers { result.now ≡ self.now }
        ensures distinct { HasDistinctIds self.now }
        ensures in_range { AreInRange self.now }
    {
        self.timers.as_slice()
    }

    /// Starts a timer at the moment `now`, due after `delay` and then, if it has a period, again after each period. The
    /// answer is its id, the least above 0 that is not live. After an error nothing is started.
    pub fn start(
        &mut self,
        now: u64,
        delay: u64,
        period: Option<u64>,
        call: ObjId,
    ) -> Result<u32, OutOfMemory>
        requires few { length self.old < spec.timer_limit }
        requires now { now < 2 ^ 60 }
        requires delay { delay < 2 ^ 60 }
        requires period { unwrap_or period 0 < 2 ^ 60 }
        requires long { 0 < unwrap_or period 1 }
        ensures id { IfOk result (λ id. id ≡ spec.least_free self.old) }
        ensures started { OnOk result (self.new ≡ spec.started self.old now delay period call) }
        ensures err { OnErr result (self.new ≡ self.old) }
    {
        let place = free_place(&mut self.marks, self.full)?;
        let id = place as u32 + 1;
        self.timers.push(Live {
            id,
            due: now + delay,
            period,
            call,
        })?;
        self.marks[place] = true;
        self.full = place + 1;
        Ok(id)
    }

    /// Removes the timer with this id; where none is live nothing changes.
    pub fn clear(&mut self, id: u64)
        ensures { self.new ≡ spec.cleared self.old id }
    {
        remove(&mut self.timers, id);
        self.full = unmark(&mut self.marks, self.full, id);
    }

    /// The id and the due time of the timer that is due first, the one started first where several are; None where no timer
    /// is live.
    pub fn next_due(&self) -> Option<(u32, u64)>
        ensures { result ≡ option_map (λ t. (t.id, t.due)) (spec.first (spec.in_order self.now)) }
    {
        match earliest(self.timers.as_slice()) {
            Some(timer) => Some((timer.id, timer.due)),
            None => None,
        }
    }

    /// Takes the first timer that is due at or before the moment: its id, its due time and its function. A timeout is
    /// removed, and an interval is put at the end, due one period later. None where no timer is due.
    pub fn take_due(&mut self, until: u64) -> Option<(u32, u64, ObjId)>
        requires { until < 2 ^ 60 }
        ensures taken { result ≡ option_map (λ t. (t.id, t.due, t.call))
            (spec.first (spec.due_timers self.old until)) }
        ensures left { self.new ≡ spec.after_first self.old
            (spec.first (spec.due_timers self.old until)) }
    {
        match first_due(self.timers.as_slice(), until) {
            Some(timer) => {
                take(&mut self.timers, timer);
                match timer.period {
                    Some(_) => {}
                    None => self.full = unmark(&mut self.marks, self.full, u64::from(timer.id)),
                }
                Some((timer.id, timer.due, timer.call))
            }
            None => None,
        }
    }

    /// The first timer that is due at or before the moment fires: it is taken, and the clock becomes its due time, where
    /// that is later. The answer is its function; None where no timer is due, and then nothing changes.
    pub fn fire(&mut self, clock: &mut u64, until: u64) -> Option<ObjId>
        requires { until < 2 ^ 60 }
        ensures fired { result ≡ option_map (λ t. t.call)
            (spec.first (spec.due_timers self.old until)) }
        ensures left { self.new ≡ spec.after_first self.old
            (spec.first (spec.due_timers self.old until)) }
        ensures clock { clock.new ≡ spec.clock_after clock.old
            (spec.first (spec.due_timers self.old until)) }
    {
        match self.take_due(until) {
            Some((_, due, call)) => {
                *clock = due.max(*clock);
                Some(call)
            }
            None => None,
        }
    }
}

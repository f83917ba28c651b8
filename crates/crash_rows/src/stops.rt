//! Each call on files fails in turn, and the store is stopped behind it.

use crate::files::{Failing, Who};
use crate::running::{Found, Trial};
use crate::script::Script;
use std::alloc::Global;
use std::sync::Wait;
use std::thread::Threads;

/// No script has so many calls.
pub(crate) const MOST_CALLS: u64 = 1000;

/// What was found behind stops.
#[derive(Clone, Copy)]
pub(crate) struct Seen {
    pub(crate) stops: u64,
    pub(crate) wrong: u64,
    pub(crate) answered: bool,
    pub(crate) next: bool,
    pub(crate) apart: bool,
}

impl Seen {
    pub(crate) fn nothing() -> Seen {
        Seen {
            stops: 0,
            wrong: 0,
            answered: false,
            next: false,
            apart: false,
        }
    }

    pub(crate) fn add(&mut self, found: Found) {
        self.stops = self.stops.saturating_add(1);
        match found {
            Found::Answered => self.answered = true,
            Found::Next => self.next = true,
            Found::Apart => self.apart = true,
            Found::Wrong => self.wrong = self.wrong.saturating_add(1),
        }
    }

    /// Which of those that may be were seen.
    pub(crate) fn kinds(&self) -> &'static str {
        match (self.answered, self.next, self.apart) {
            (true, true, true) => "both, also each of one partition",
            (true, false, true) => "without the next window, or with it in one partition",
            (false, true, true) => "with the next window, or with it in one partition",
            (false, false, true) => "with the next window in one partition",
            (true, true, false) => "both",
            (true, false, false) => "without the next window",
            (false, true, false) => "with the next window",
            (false, false, false) => "none",
        }
    }
}

/// The line that answers a row of stops.
pub(crate) fn answer<R: Threads + Wait + Sync>(
    rt: &R,
    alloc: Global,
    script: &Script,
    who: Who,
    choices: u64,
) -> Option<String> {
    let trial = Trial::of(rt, alloc, script)?;
    let mut seen = Seen::nothing();
    let mut calls = 0u64;
    for call in 0..MOST_CALLS {
        if !stop_all(
            alloc,
            &trial,
            failing_at(script, who, call),
            choices,
            &mut seen,
        )? {
            break;
        }
        calls = calls.saturating_add(1);
    }
    format!(in alloc;
        "{calls} calls failed, {} stops, {} wrong, {}\n",
        seen.stops,
        seen.wrong,
        seen.kinds()
    )
    .ok()
}

/// A call of the partition whose calls fail.
pub(crate) fn failing_at(script: &Script, who: Who, call: u64) -> Failing {
    Failing {
        partition: script.failing(),
        who,
        call,
    }
}

// Stops a store in so many ways behind a call that fails. Tells whether there is such a call.
fn stop_all<R: Threads + Wait + Sync>(
    alloc: Global,
    trial: &Trial<'_, R>,
    failing: Failing,
    choices: u64,
    seen: &mut Seen,
) -> Option<bool> {
    for choice in 0..choices {
        let stopped = trial.stopped(alloc, failing, choice)?;
        match stopped.status {
            0 => return Some(false),
            5 => seen.add(trial.found(alloc, stopped)?),
            _ => seen.add(Found::Wrong),
        }
    }
    Some(true)
}

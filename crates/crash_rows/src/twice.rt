//! An opening behind a stop fails too, at each of its calls in turn, and is stopped there.

ghost use Rattle.crash_rows.specs.Rests.{AreAtRest};

use crate::files::{Failing, Who};
use crate::running::{Found, Stopped, Trial};
use crate::script::Script;
use crate::stops::{MOST_CALLS, Seen, failing_at};
use std::alloc::Global;
use std::sync::Wait;
use std::thread::Threads;

/// Stops are chosen among so many.
const CHOICES: u64 = 64;

/// An opening has so many calls at least: those over no file.
const FEWEST: u64 = 8;

/// The line that answers a row of stops that come twice.
pub(crate) fn answer<R: Threads + Wait + Sync>(
    rt: &R,
    alloc: Global,
    script: &Script,
    who: Who,
) -> Option<String> {
    let trial = Trial::of(rt, alloc, script)?;
    let mut seen = Seen::nothing();
    let mut calls = 0u64;
    let mut short = 0u64;
    for call in 0..MOST_CALLS {
        let openings = stop_openings(alloc, &trial, failing_at(script, who, call), &mut seen)?;
        if openings == 0 {
            break;
        }
        calls = calls.saturating_add(1);
        if openings < FEWEST {
            short = short.saturating_add(1);
        }
    }
    format!(in alloc;
        "{calls} calls failed, {short} openings of fewer than {FEWEST} calls, {} wrong, {}\n",
        seen.wrong,
        seen.kinds()
    )
    .ok()
}

// Fails an opening at each of its calls. Answers how many it has, or 0 where the run before it does not fail.
fn stop_openings<R: Threads + Wait + Sync>(
    alloc: Global,
    trial: &Trial<'_, R>,
    failing: Failing,
    seen: &mut Seen,
) -> Option<u64> {
    for call in 0..MOST_CALLS {
        let choice = failing.call.wrapping_add(call) % CHOICES;
        let stopped = trial.stopped(alloc, failing, choice)?;
        if stopped.status == 0 || !stop_opening(alloc, trial, stopped, call, seen)? {
            return Some(call);
        }
    }
    Some(MOST_CALLS)
}

// Fails an opening at a call, and stops it there. Tells whether there is such a call.
fn stop_opening<R: Threads + Wait + Sync>(
    alloc: Global,
    trial: &Trial<'_, R>,
    stopped: Stopped,
    call: u64,
    seen: &mut Seen,
) -> Option<bool>
    requires at_rest { AreAtRest stopped.files }
{
    let choice = call.wrapping_mul(5) % CHOICES;
    let again = trial.stopped_again(alloc, stopped, call, choice)?;
    match again.status {
        0 => return Some(false),
        5 => seen.add(trial.found(alloc, again)?),
        _ => seen.add(Found::Wrong),
    }
    Some(true)
}

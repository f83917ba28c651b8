//! Paces that have two points of a run wait for each other.

use std::alloc::Global;
use std::sync::Arc;
use std::sync::atomic::{AtomicBool, Ordering};
use tc_bytes::Memory;
use tc_running::{Pace, Point};

/// How many turns a thread waits, and how often it looks in a turn.
const TURNS: u32 = 1_000_000;

const LOOKS: u32 = 1_024;

/// What came of the two points.
#[derive(Drop)]
pub(crate) struct Outcome {
    one: AtomicBool,
    other: AtomicBool,
    missed: AtomicBool,
}

impl Outcome {
    /// Neither point was reached.
    pub(crate) fn new(alloc: Global) -> Result<Arc<Outcome>, Memory> {
        let outcome = Outcome {
            one: AtomicBool::new(false),
            other: AtomicBool::new(false),
            missed: AtomicBool::new(false),
        };
        Ok(Arc::new(alloc, outcome)?)
    }

    /// Whether both points were reached, each while the other one's thread waited, or had not gone on.
    pub(crate) fn is_met(&self) -> bool {
        self.one.load(Ordering::SeqCst)
            && self.other.load(Ordering::SeqCst)
            && !self.missed.load(Ordering::SeqCst)
    }

    // A thread has reached its point, and waits until the other one has.
    fn meet(&self, mine: &AtomicBool, other: &AtomicBool) {
        mine.store(true, Ordering::SeqCst);
        if !came(other) {
            self.missed.store(true, Ordering::SeqCst);
        }
    }
}

// Waits for a point. Answers whether it was reached before the turns ran out.
fn came(point: &AtomicBool) -> bool {
    for _ in 0..TURNS {
        for _ in 0..LOOKS {
            if point.load(Ordering::SeqCst) {
                return true;
            }
        }
    }
    false
}

/// Two points, each of which waits until the other one was reached.
#[derive(Drop)]
pub(crate) struct Meeting {
    one: Point,
    other: Point,
    outcome: Arc<Outcome>,
}

impl Meeting {
    pub(crate) fn new(one: Point, other: Point, outcome: Arc<Outcome>) -> Meeting {
        Meeting {
            one,
            other,
            outcome,
        }
    }
}

impl Pace for Meeting {
    fn at(&self, point: Point) {
        let outcome = &self.outcome;
        if point == self.one {
            outcome.meet(&outcome.one, &outcome.other);
        } else if point == self.other {
            outcome.meet(&outcome.other, &outcome.one);
        }
    }
}

/// Two meetings in one run.
#[derive(Drop)]
pub(crate) struct Meetings {
    pub(crate) one: Meeting,
    pub(crate) other: Meeting,
}

impl Pace for Meetings {
    fn at(&self, point: Point) {
        self.one.at(point);
        self.other.at(point);
    }
}

//! What the thread of a job comes to: a point before the job's first call, and others after it.

use crate::pace::{Pace, Point};
use std::alloc::Global;
use std::sync::Arc;
use std::sync::atomic::{AtomicBool, Ordering};
use tc_bytes::Memory;

/// What a job's thread needs beside the job, made before the job is.
#[derive(Drop)]
pub struct Beginning<P: Pace> {
    start: Start<P>,
    refusal: Refusal,
}

/// A point, which a thread comes to if it was not refused, and with it to others.
#[derive(Drop)]
pub struct Start<P: Pace> {
    pace: Arc<P>,
    point: Point,
    refused: Arc<AtomicBool>,
}

/// Tells a start that its thread was refused.
#[derive(Drop)]
pub(crate) struct Refusal {
    refused: Arc<AtomicBool>,
}

impl<P: Pace> Beginning<P> {
    /// A beginning whose thread comes to this point. Errs only for want of memory.
    pub fn new(alloc: Global, pace: &Arc<P>, point: Point) -> Result<Beginning<P>, Memory> {
        let pace = Arc::try_clone(pace)?;
        let refused = Arc::new(alloc, AtomicBool::new(false))?;
        let refusal = Refusal {
            refused: Arc::try_clone(&refused)?,
        };
        let start = Start {
            pace,
            point,
            refused,
        };
        Ok(Beginning { start, refusal })
    }

    /// What the thread is given, and what tells that it was refused.
    pub(crate) fn split(self) -> (Start<P>, Refusal) {
        let Beginning { start, refusal } = self;
        (start, refusal)
    }
}

impl<P: Pace> Start<P> {
    /// Comes to the point. Where the thread was refused nobody is there who could be held, and the point is passed over.
    pub(crate) fn reach(&self) {
        self.reach_next(self.point);
    }

    /// Comes to a point after that, likewise.
    pub fn reach_next(&self, point: Point) {
        if !self.refused.load(Ordering::SeqCst) {
            self.pace.at(point);
        }
    }
}

impl Refusal {
    /// Tells the start that nobody is there who comes to a point.
    pub(crate) fn tell(&self) {
        self.refused.store(true, Ordering::SeqCst);
    }
}

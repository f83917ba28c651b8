//! Paces that hold each point for a while of its own, so that threads take other turns in each run.

use crate::lines::{mixed, scattered};
use crate::running::replies;
use std::sync::Wait;
use std::sync::atomic::{AtomicU64, Ordering};
use std::thread::Threads;
use tc_running::{Free, Pace, Point};

/// How many lines each run reads.
const LINES: u64 = 10_000;

/// Holds the points that threads come to, each for up to so many turns, by its number and by how many came before.
#[derive(Drop)]
struct Wandering {
    seed: u64,
    came: AtomicU64,
}

impl Pace for Wandering {
    fn at(&self, _point: Point) {
        let before = self.came.load(Ordering::SeqCst);
        self.came.store(before.wrapping_add(1), Ordering::SeqCst);
        let chance = scattered(self.seed ^ before);
        // Few points are held for long, or a run would take minutes.
        let turns = if chance % 64 == 0 {
            chance >> 48
        } else {
            (chance >> 32) % 64
        };
        for _ in 0..turns {
            self.came.load(Ordering::SeqCst);
        }
    }
}

/// How many of so many paces have a run over four partitions reply otherwise than one over a single partition.
pub(crate) fn differing<R: AllocGlobal + Threads + Wait + Sync>(rt: &R, paces: u64) -> Option<u64> {
    let input = mixed(rt.alloc(), LINES)?;
    let input = input.as_str();
    let plain = replies(rt, "run --partitions 1", input, Free)?;
    let mut other = 0u64;
    for seed in 0..paces {
        let pace = Wandering {
            seed,
            came: AtomicU64::new(0),
        };
        let words = "run --partitions 4 --memory 4096 --window 64 --merge 3";
        if replies(rt, words, input, pace)?.as_slice() != plain.as_slice() {
            other = other.saturating_add(1);
        }
    }
    Some(other)
}

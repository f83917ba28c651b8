//! Runs in which two threads have to go on beside each other.

use crate::lines::upserts_and_get;
use crate::meeting::{Meeting, Outcome};
use crate::running::replies;
use std::sync::{Arc, Wait};
use std::thread::Threads;
use tc_running::Point;

/// Whether a job of this name goes on while a get behind its start is answered. The table is sealed at the ninth document, and
/// a merge begins where the third one is.
pub(crate) fn with_job<R: AllocGlobal + Threads + Wait + Sync>(rt: &R, job: &str) -> Option<bool> {
    match job {
        "flush" => waits(rt, Point::FlushStarted { partition: 0 }, 9),
        "merge" => waits(rt, Point::MergeStarted { partition: 0 }, 27),
        _ => None,
    }
}

// Whether the point of a job and the reply to the get behind so many upserts wait for each other.
fn waits<R: AllocGlobal + Threads + Wait + Sync>(rt: &R, job: Point, upserts: u32) -> Option<bool> {
    let get = Point::Replied {
        partition: 0,
        number: u64::from(upserts),
    };
    let input = upserts_and_get(rt.alloc(), upserts)?;
    meet(
        rt,
        "run --partitions 1 --memory 4096 --window 1 --merge 2",
        input.as_str(),
        job,
        get,
    )
}

/// Whether the engines of two partitions answer a window at once that has a query.
pub(crate) fn of_engines<R: AllocGlobal + Threads + Wait + Sync>(rt: &R) -> Option<bool> {
    let first = |partition| Point::Replied {
        partition,
        number: 0,
    };
    meet(
        rt,
        "run --partitions 2 --window 1",
        "{\"op\":\"query\",\"path\":[]}\n",
        first(0),
        first(1),
    )
}

// Whether a run comes to both points, each of which waits for the other.
fn meet<R: AllocGlobal + Threads + Wait + Sync>(
    rt: &R,
    words: &str,
    input: &str,
    one: Point,
    other: Point,
) -> Option<bool> {
    let outcome = Outcome::new(rt.alloc()).ok()?;
    let shared = Arc::try_clone(&outcome).ok()?;
    replies(rt, words, input, Meeting::new(one, other, shared))?;
    Some(outcome.is_met())
}

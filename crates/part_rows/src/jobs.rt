//! Rows of what the jobs of a partition begin and end with.

use crate::bench::Bench;
use std::alloc::Global;
use tc_rows::{Answering, answer_calls, numbers};

/// The answers of a row that begins so, and has these calls.
pub(crate) fn answers_of<R: AllocGlobal>(rt: &R, begin: &str, calls: &str) -> Option<String> {
    let alloc = rt.alloc();
    let mut bench = Bench::begun(alloc, failing_in(alloc, begin)?);
    let mut answers = answer_calls(rt, &mut bench, calls)?;
    bench.end(alloc, &mut answers)?;
    Some(answers)
}

// Which calls on files fail.
fn failing_in(alloc: Global, begin: &str) -> Option<Vec<u64>> {
    let failing = begin.strip_prefix("jobs")?;
    if failing.is_empty() {
        return Some(Vec::new(alloc));
    }
    numbers(alloc, failing.strip_prefix(" ")?)
}

impl<R: AllocGlobal> Answering<R> for Bench {
    fn answer(&mut self, rt: &R, call: &str) -> Option<String> {
        let alloc = rt.alloc();
        let (name, argument) = call.split_once(' ')?;
        match name {
            "list" => self.list(alloc, argument),
            "place" => self.place(alloc, argument),
            "share" => self.share(alloc, argument),
            "inputs" => self.inputs(alloc, argument),
            "uncover" => self.uncover(alloc, argument),
            _ => None,
        }
    }
}

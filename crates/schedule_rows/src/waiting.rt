//! A caller that gives no line before it has the replies that are due to it.

ghost use Rattle.std.specs.Prelude.{None};

use crate::running::{PIECE, empty_shelf};
use std::sync::Wait;
use std::thread::Threads;
use tc_edge::{EdgeFault, MemSink, Source};
use tc_rows::numbers;
use tc_running::Free;
use tc_server::serve;

const GET: &str = "{\"op\":\"get\",\"id\":1}\n";

const SCHEMA: &str = "{\"op\":\"schema\"}\n";

/// What the caller gives, a line a read.
const LINES: [&str; 5] = [GET, GET, GET, SCHEMA, GET];

// Gives one line a read, and the end after them. A read fails where the sink has accepted more or fewer replies than are due
// after the lines that were given so far.
#[derive(Drop)]
struct Waiting {
    due: Vec<u64>,
    at: usize,
    faults: u64,
}

impl Source<MemSink> for Waiting {
    ghost left = { λ s. None };

    ghost faults = { λ s. s.faults };

    ghost moments = { λ s. None };

    fn read(&mut self, into: &mut [u8], beside: &MemSink) -> Result<usize, EdgeFault> {
        if self.due.get(self.at).copied() != Some(replies(beside.taken())) {
            self.faults = self.faults.saturating_add(1);
            return Err(EdgeFault);
        }
        let line = LINES.get(self.at).copied().unwrap_or("");
        self.at = self.at.saturating_add(1);
        let count = line.len().min(into.len());
        into[..count].copy_from_slice(&line.as_bytes()[..count]);
        Ok(count)
    }
}

fn replies(accepted: &[u8]) -> u64 {
    let mut count = 0u64;
    for byte in accepted {
        if *byte == b'\n' {
            count = count.saturating_add(1);
        }
    }
    count
}

/// The status of a run for these words whose caller waits for so many replies before each line, and before the end: the
/// numbers, and after a `; ` the words.
pub(crate) fn answer_of<R: AllocGlobal + Threads + Wait + Sync>(
    rt: &R,
    argument: &str,
) -> Option<String> {
    let alloc = rt.alloc();
    let (due, words) = argument.split_once("; ")?;
    let words = tc_rows::words(alloc, words)?;
    let mut source = Waiting {
        due: numbers(alloc, due)?,
        at: 0,
        faults: 0,
    };
    let mut sink = MemSink::new(alloc, PIECE, Vec::new(alloc));
    let mut shelf = empty_shelf(alloc)?;
    let served = serve(
        rt,
        alloc,
        words.as_slice(),
        &mut source,
        &mut sink,
        &mut shelf,
        Free,
    );
    format!(in alloc; "status {}", served.status).ok()
}

//! A run that is made ready row by row, and then served.

use crate::parts::Parts;
use crate::shown::{OnOutput, shown};
use std::alloc::{AllocError, Global};
use std::sync::Wait;
use std::thread::Threads;
use tc_edge::{MemSink, MemSource};
use tc_rows::words;
use tc_running::Free;
use tc_server::{Served, run_program};
use tc_store::MemShelf;

// The bytes that a call takes at most, and the number of the call that fails.
#[derive(Clone, Copy)]
struct Edge {
    piece: usize,
    failing: Option<u64>,
}

const SOUND: Edge = Edge {
    piece: 1_048_576,
    failing: None,
};

/// The words, the input, how the streams behave, and the files of the partitions.
#[derive(Drop)]
pub(crate) struct Run {
    words: String,
    input: Vec<u8>,
    reads: Edge,
    writes: Edge,
    parts: Parts,
}

impl Run {
    /// A run without words, input or files, over streams that do not fail.
    pub(crate) fn new(alloc: Global) -> Result<Run, AllocError> {
        Ok(Run {
            words: String::new(alloc),
            input: Vec::new(alloc),
            reads: SOUND,
            writes: SOUND,
            parts: Parts::new(alloc)?,
        })
    }

    /// Makes a part of the run ready.
    pub(crate) fn prepare(&mut self, alloc: Global, call: &str, argument: &str) -> Option<()> {
        match call {
            "words" => self.words = String::from_str(alloc, argument).ok()?,
            "reads" => self.reads = edge_of(argument)?,
            "writes" => self.writes = edge_of(argument)?,
            "partition" => self.parts.choose(argument)?,
            "again" => self.parts.chosen()?.again(argument)?,
            "file" => self.parts.chosen()?.give(alloc, argument)?,
            "fails" => self.parts.chosen()?.fail(argument)?,
            _ => self.add(call, argument)?,
        }
        Some(())
    }

    // Adds to the input.
    fn add(&mut self, call: &str, argument: &str) -> Option<()> {
        match call {
            "text" => self.input.extend_from_slice(argument.as_bytes()).ok(),
            "line" => self.add_line(argument),
            "lines" => self.add_lines(argument),
            "padded" => self.add_padded(argument),
            "repeated" => self.add_repeated(argument),
            _ => None,
        }
    }

    fn add_line(&mut self, line: &str) -> Option<()> {
        self.input.extend_from_slice(line.as_bytes()).ok()?;
        self.input.push(b'\n').ok()
    }

    // So many times the same line.
    fn add_lines(&mut self, argument: &str) -> Option<()> {
        let (times, line) = argument.split_once(' ')?;
        for _ in 0..times.parse::<u64>().ok()? {
            self.add_line(line)?;
        }
        Some(())
    }

    // A line with spaces behind it, up to so many bytes.
    fn add_padded(&mut self, argument: &str) -> Option<()> {
        let (length, line) = argument.split_once(' ')?;
        let spaces = length.parse::<usize>().ok()?.saturating_sub(line.len());
        let end = self.input.len().saturating_add(line.len());
        self.input.extend_from_slice(line.as_bytes()).ok()?;
        self.input.resize(end.saturating_add(spaces), b' ').ok()?;
        self.input.push(b'\n').ok()
    }

    // So many times the same text, with no line feed.
    fn add_repeated(&mut self, argument: &str) -> Option<()> {
        let (times, text) = argument.split_once(' ')?;
        for _ in 0..times.parse::<u64>().ok()? {
            self.input.extend_from_slice(text.as_bytes()).ok()?;
        }
        Some(())
    }

    /// Runs the program, which says on standard output how it ended, and shows its status and what was accepted. The next run
    /// has these words, no input, no file, and no call fails.
    pub(crate) fn serve<R: Print + AllocGlobal + Threads + Wait + Sync>(
        &mut self,
        rt: &R,
    ) -> Option<String> {
        let alloc = rt.alloc();
        let words = words(alloc, self.words.as_str())?;
        let mut source = MemSource::new(
            self.input.to_vec(alloc).ok()?,
            self.reads.piece.max(1),
            calls(alloc, self.reads)?,
        );
        let mut sink = MemSink::new(alloc, self.writes.piece, calls(alloc, self.writes)?);
        let mut shelf = MemShelf::new(self.parts.kits(alloc)?);
        let output = OnOutput { rt };
        let served = run_program(&output, Ok(words), &mut source, &mut sink, &mut shelf, Free);
        self.input.clear();
        self.reads = SOUND;
        self.writes = SOUND;
        let Served { status, kits, .. } = served;
        let text = shown(alloc, status, kits.len(), sink.taken());
        self.parts.keep(kits);
        text
    }

    /// Shows the files that the last run left.
    pub(crate) fn files(&mut self, alloc: Global, argument: &str) -> Option<String> {
        self.parts.chosen()?.shown(alloc, argument)
    }
}

fn edge_of(argument: &str) -> Option<Edge> {
    let (piece, failing) = argument.split_once(' ').unwrap_or((argument, ""));
    Some(Edge {
        piece: piece.parse::<usize>().ok()?,
        failing: failing.parse::<u64>().ok(),
    })
}

// The numbers of the calls that fail.
fn calls(alloc: Global, edge: Edge) -> Option<Vec<u64>> {
    let mut numbers = Vec::new(alloc);
    if let Some(number) = edge.failing {
        numbers.push(number).ok()?;
    }
    Some(numbers)
}

//! A run of the server over streams and files in memory.

use crate::kits::empty_kits;
use std::alloc::Global;
use std::sync::Wait;
use std::thread::Threads;
use tc_edge::{MemSink, MemSource};
use tc_running::Pace;
use tc_server::{Served, serve};
use tc_store::MemShelf;

/// How many bytes a call of a stream takes at most.
pub(crate) const PIECE: usize = 65_536;

/// Runs these words over the input, and gives what was written, if the run ended well.
pub(crate) fn replies<R: AllocGlobal + Threads + Wait + Sync, P: Pace + 'static>(
    rt: &R,
    words: &str,
    input: &str,
    pace: P,
) -> Option<Vec<u8>> {
    let alloc = rt.alloc();
    let words = tc_rows::words(alloc, words)?;
    let input = input.as_bytes().to_vec(alloc).ok()?;
    let mut source = MemSource::new(input, PIECE, Vec::new(alloc));
    let mut sink = MemSink::new(alloc, PIECE, Vec::new(alloc));
    let mut shelf = empty_shelf(alloc)?;
    let Served { status, .. } = serve(
        rt,
        alloc,
        words.as_slice(),
        &mut source,
        &mut sink,
        &mut shelf,
        pace,
    );
    if status == 0 {
        sink.taken().to_vec(alloc).ok()
    } else {
        None
    }
}

/// A shelf of stores in memory, without files.
pub(crate) fn empty_shelf(alloc: Global) -> Option<MemShelf> {
    match empty_kits(alloc) {
        Ok(kits) => Some(MemShelf::new(kits)),
        Err(_) => None,
    }
}

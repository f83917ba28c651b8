//! The windows of rows.

use std::alloc::Global;
use tc_bytes::Bytes;
use tc_command::parse;
use tc_gen::Feed;
use tc_route::Routed;

/// The generated lines, of which there are one more than so many.
pub(crate) fn fed(alloc: Global, count: u32) -> Option<Vec<Bytes>> {
    let mut feed = Feed::new(count);
    let mut lines = Vec::new(alloc);
    for _ in 0..count {
        lines.push(feed.next(alloc).ok()??).ok()?;
    }
    lines.push(feed.next(alloc).ok()??).ok()?;
    if feed.next(alloc).ok()?.is_none() {
        Some(lines)
    } else {
        None
    }
}

/// Lines that stand between tabs.
pub(crate) fn given(alloc: Global, text: &str) -> Option<Vec<Bytes>> {
    let mut lines = Vec::new(alloc);
    for line in text.split('\t') {
        let bytes = Vec::from_slice(alloc, line.as_bytes()).ok()?;
        lines.push(Bytes::of(bytes)).ok()?;
    }
    Some(lines)
}

/// The commands of lines, each at its place. `None` where a line is refused.
pub(crate) fn routed(alloc: Global, lines: Vec<Bytes>) -> Option<Vec<Routed>> {
    let mut window = Vec::new(alloc);
    let mut at = 0u32;
    for line in lines {
        let command = parse(alloc, line.as_slice()).ok()?;
        window.push(Routed { at, command }).ok()?;
        at = at.checked_add(1)?;
    }
    Some(window)
}

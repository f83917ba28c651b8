//! Scans that go on beside writes.

use crate::lines::push_number;
use crate::meeting::{Meeting, Meetings, Outcome};
use crate::running::replies;
use std::alloc::Global;
use std::fmt::Write;
use std::str;
use std::sync::{Arc, Wait};
use std::thread::Threads;
use tc_running::{Free, Point};

/// How many upserts stand before the one whose reply meets the thread of the scan, and behind the one whose reply meets its
/// snapshots.
const APART: u32 = 5;

/// How many partitions a large scan goes over.
const PARTITIONS: u32 = 2;

/// By how much the number of a document grows when it is written again.
const AGAIN: u64 = 1_000_000;

const SCAN: &str = "{\"op\":\"scan\",\"path\":[\"n\"]}\n";

const COLLECT: &str = "{\"op\":\"collect\"}\n";

/// Whether a scan goes on beside the lines behind it: its thread and the reply to an upsert wait for each other, and so do its
/// snapshots and the reply to the next upsert; and its prefix ends between these two.
pub(crate) fn is_between<R: AllocGlobal + Threads + Wait + Sync>(rt: &R) -> Option<bool> {
    let alloc = rt.alloc();
    let started = Outcome::new(alloc).ok()?;
    let taken = Outcome::new(alloc).ok()?;
    let pace = Meetings {
        one: meeting(Point::ScanStarted, APART, &started)?,
        other: meeting(Point::ScanTaken, APART + 1, &taken)?,
    };
    let mut input = String::from_str(alloc, SCAN).ok()?;
    push_numbers(&mut input, 0, APART + 2 + APART, 0)?;
    input.push_str(COLLECT).ok()?;
    let output = replies(rt, "run --partitions 1 --window 1", input.as_str(), pace)?;
    let upto = upto_in(alloc, output.as_slice())?;
    let [writes] = upto.as_slice() else {
        return Some(false);
    };
    let ends_between = u64::from(APART) <= *writes && *writes <= u64::from(APART + 2);
    Some(started.is_met() && taken.is_met() && ends_between)
}

// A point of the scan and the reply to the upsert of this number wait for each other.
fn meeting(point: Point, number: u32, outcome: &Arc<Outcome>) -> Option<Meeting> {
    let reply = Point::Replied {
        partition: 0,
        number: u64::from(number),
    };
    let shared = Arc::try_clone(outcome).ok()?;
    Some(Meeting::new(point, reply, shared))
}

/// Whether a run whose scan begins before so many upserts, and is collected behind them, writes what it may: the rows of some of the
/// first, and how many these are. One whose scan begins behind them has the rows of all.
pub(crate) fn is_prefix<R: AllocGlobal + Threads + Wait + Sync>(
    rt: &R,
    upserts: u32,
) -> Option<bool> {
    Some(is_prefix_from(rt, upserts, 0)? && is_prefix_from(rt, upserts, upserts)?)
}

// So of a scan with so many of the upserts before it. A second scan meanwhile and a second collect are refused.
fn is_prefix_from<R: AllocGlobal + Threads + Wait + Sync>(
    rt: &R,
    upserts: u32,
    before: u32,
) -> Option<bool> {
    let alloc = rt.alloc();
    let mut input = String::new(alloc);
    push_numbers(&mut input, 0, before, 0)?;
    input.push_str(SCAN).ok()?;
    push_numbers(&mut input, before, upserts, 0)?;
    input.push_str(SCAN).ok()?;
    input.push_str(COLLECT).ok()?;
    input.push_str(COLLECT).ok()?;
    let output = replies(rt, "run --partitions 1 --window 1", input.as_str(), Free)?;
    for upto in before..=upserts {
        if prefix_text(alloc, upserts, before, upto)?.as_bytes() == output.as_slice() {
            return Some(true);
        }
    }
    Some(false)
}

// What such a run writes whose scan has so many of the upserts.
fn prefix_text(alloc: Global, upserts: u32, before: u32, upto: u32) -> Option<String> {
    let mut text = String::new(alloc);
    push_replies(&mut text, 0, before)?;
    text.push_str("{\"scan\":\"started\"}\n").ok()?;
    push_replies(&mut text, before, upserts)?;
    text.push_str("{\"refused\":\"busy\"}\n{\"rows\":[").ok()?;
    for key in 0..upto {
        push_row(&mut text, key, u64::from(key))?;
    }
    write!(
        &mut text,
        "],\"upto\":[{upto}]}}\n{{\"refused\":\"no_scan\"}}\n"
    )
    .ok()?;
    Some(text)
}

/// Whether a scan over so many documents, all of which are written again beside it, has the rows that a plain store would have
/// behind as many writes of each partition as it says.
pub(crate) fn is_whole<R: AllocGlobal + Threads + Wait + Sync>(
    rt: &R,
    documents: u32,
) -> Option<bool> {
    let alloc = rt.alloc();
    let mut input = String::new(alloc);
    push_numbers(&mut input, 0, documents, 0)?;
    input.push_str(SCAN).ok()?;
    push_numbers(&mut input, 0, documents, AGAIN)?;
    input.push_str(COLLECT).ok()?;
    let output = replies(rt, "run --partitions 2", input.as_str(), Free)?;
    let upto = upto_in(alloc, output.as_slice())?;
    let expected = rows_text(alloc, documents, upto.as_slice())?;
    let output = str::from_utf8(output.as_slice()).ok()?;
    Some(output.ends_with(expected.as_str()))
}

// The reply to the collect where the scan is over so many writes of each partition, of which each has half of the documents. None
// where one lacks a write that was answered before the scan.
fn rows_text(alloc: Global, documents: u32, upto: &[u64]) -> Option<String> {
    let [even, odd] = upto else {
        return None;
    };
    let before = u64::from(documents / PARTITIONS);
    let even_again = even.checked_sub(before)?;
    let odd_again = odd.checked_sub(before)?;
    let mut text = String::from_str(alloc, "\n{\"rows\":[").ok()?;
    for key in 0..documents {
        let again = if key % PARTITIONS == 0 {
            even_again
        } else {
            odd_again
        };
        let is_again = u64::from(key / PARTITIONS) < again;
        push_row(
            &mut text,
            key,
            number_of(key, if is_again { AGAIN } else { 0 }),
        )?;
    }
    write!(&mut text, "],\"upto\":[{even},{odd}]}}\n").ok()?;
    Some(text)
}

// Adds upserts of documents with a number, by their keys from the first one on and below the end.
fn push_numbers(input: &mut String, first: u32, end: u32, more: u64) -> Option<()> {
    for key in first..end {
        push_number(input, u64::from(key), number_of(key, more))?;
    }
    Some(())
}

// The number in the document of a key, which grows by so much when it is written again.
fn number_of(key: u32, more: u64) -> u64 {
    more.saturating_add(u64::from(key))
}

// Adds the replies to the first upserts of these keys.
fn push_replies(text: &mut String, first: u32, end: u32) -> Option<()> {
    for key in first..end {
        write!(text, "{{\"id\":{key},\"replaced\":false}}\n").ok()?;
    }
    Some(())
}

// Adds the row of a document, and a comma before it unless it is the first.
fn push_row(text: &mut String, key: u32, number: u64) -> Option<()> {
    let comma = if key == 0 { "" } else { "," };
    write!(text, "{comma}{{\"id\":{key},\"values\":[{number}]}}").ok()
}

// The numbers in the last brackets of an output.
fn upto_in(alloc: Global, output: &[u8]) -> Option<Vec<u64>> {
    let (_rows, last) = str::from_utf8(output).ok()?.rsplit_once('[')?;
    let (list, _end) = last.split_once(']')?;
    let mut numbers = Vec::new(alloc);
    for number in list.split(',') {
        numbers.push(number.parse::<u64>().ok()?).ok()?;
    }
    Some(numbers)
}

//! Lines: the commands that they ask for.

use crate::replies::line_of;
use std::alloc::Global;
use std::fmt::Write;
use tc_command::{Ask, Command, Hop, ParseFault, Refusal, Reply};
use tc_command_reader::CommandReader;
use tc_json::text_of;
use tc_rows::bytes;
use tc_value::Doc;

/// What a line asks for: the command, or the number and the reply of the refusal.
pub(crate) fn asked(alloc: Global, line: &[u8]) -> Option<String> {
    let mut reader = CommandReader::new(alloc);
    match reader.parse(alloc, line) {
        Ok(command) => shown(alloc, &command),
        Err(ParseFault::Refused(refusal)) => refused(alloc, refusal),
        Err(ParseFault::Memory) => None,
    }
}

/// The same of a line with spaces behind it, up to a length that stands before it.
pub(crate) fn padded(alloc: Global, argument: &str) -> Option<String> {
    let (length, text) = argument.split_once(' ')?;
    let length = length.parse::<usize>().ok()?;
    let mut line = Vec::from_slice(alloc, text.as_bytes()).ok()?;
    line.resize(length, b' ').ok()?;
    asked(alloc, line.as_slice())
}

/// The same of a line in hexadecimal digits.
pub(crate) fn hex(alloc: Global, digits: &str) -> Option<String> {
    asked(alloc, bytes(alloc, digits)?.as_slice())
}

fn refused(alloc: Global, refusal: Refusal) -> Option<String> {
    let line = line_of(alloc, &Reply::Refused(refusal))?;
    format!(in alloc; "{} {}", refusal.number(), line.as_str()).ok()
}

fn shown(alloc: Global, command: &Command) -> Option<String> {
    match command {
        Command::Upsert { key, doc } => upsert_shown(alloc, *key, doc),
        Command::Delete { key } => format!(in alloc; "delete {key}\n").ok(),
        Command::Get { key } => format!(in alloc; "get {key}\n").ok(),
        Command::Query(ask) => ask_shown(alloc, "query", ask),
        Command::Flush => String::from_str(alloc, "flush\n").ok(),
        Command::Schema => String::from_str(alloc, "schema\n").ok(),
        Command::Scan(ask) => ask_shown(alloc, "scan", ask),
        Command::Collect => String::from_str(alloc, "collect\n").ok(),
    }
}

fn upsert_shown(alloc: Global, key: u64, doc: &Doc) -> Option<String> {
    let text = text_of(alloc, doc).ok()?;
    format!(in alloc; "upsert {key} {}\n", text.as_str()).ok()
}

// A copy of an ask: its hops, and the value to compare with.
fn ask_shown(alloc: Global, op: &str, ask: &Ask) -> Option<String> {
    let copied = ask.copy(alloc).ok()?;
    let mut text = String::from_str(alloc, op).ok()?;
    push_ask(alloc, &mut text, &copied)?;
    Some(text)
}

fn push_ask(alloc: Global, text: &mut String, ask: &Ask) -> Option<()> {
    for hop in ask.path.as_slice() {
        push_hop(text, hop)?;
    }
    match &ask.eq {
        Some(doc) => push_compared(alloc, text, doc),
        None => text.push('\n').ok(),
    }
}

fn push_hop(text: &mut String, hop: &Hop) -> Option<()> {
    match hop {
        Hop::Name(name) => write!(text, " name {}", name.as_str()).ok(),
        Hop::At(place) => write!(text, " at {place}").ok(),
        Hop::Any => text.push_str(" any").ok(),
    }
}

fn push_compared(alloc: Global, text: &mut String, doc: &Doc) -> Option<()> {
    let written = text_of(alloc, doc).ok()?;
    write!(text, " eq {}\n", written.as_str()).ok()
}

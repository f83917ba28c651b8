//! What partitions get of a window, and the replies put together.

use std::alloc::Global;
use std::str;
use tc_bytes::Bytes;
use tc_command::{Command, Reply, Row, Rows, put_line};
use tc_route::{Placed, Replies, Routed, gather, split};

/// The places that each partition gets, a line each, and then the line of each reply.
pub(crate) fn answers(alloc: Global, window: Vec<Routed>, partitions: u32) -> Option<String> {
    if partitions == 0 {
        return None;
    }
    let mut out = String::new(alloc);
    let mut parts = Vec::new(alloc);
    let mut number = 0u64;
    for share in split(alloc, window, partitions).ok()? {
        put_places(alloc, number, share.as_slice(), &mut out)?;
        parts
            .push(replies(alloc, share.as_slice(), number, u64::from(partitions))?)
            .ok()?;
        number = number.checked_add(1)?;
    }
    put_replies(alloc, &gather(alloc, parts).ok()?, &mut out)?;
    Some(out)
}

fn put_places(alloc: Global, number: u64, share: &[Routed], out: &mut String) -> Option<()> {
    out.push_str(format!(in alloc; "{number}:").ok()?.as_str())
        .ok()?;
    for routed in share {
        let at = routed.at;
        out.push_str(format!(in alloc; " {at}").ok()?.as_str())
            .ok()?;
    }
    out.push_str("\n").ok()
}

fn put_replies(alloc: Global, replies: &Replies, out: &mut String) -> Option<()> {
    for placed in replies.as_slice() {
        let at = placed.at;
        let mut text = Vec::new(alloc);
        put_line(&placed.reply, &mut text).ok()?;
        out.push_str(format!(in alloc; "{at} ").ok()?.as_str())
            .ok()?;
        out.push_str(str::from_utf8(&text).ok()?).ok()?;
    }
    Some(())
}

// Replies of an empty partition, but that a query gets rows of two keys of the partition.
fn replies(alloc: Global, share: &[Routed], number: u64, count: u64) -> Option<Replies> {
    let mut replies = Vec::new(alloc);
    for routed in share {
        let reply = match &routed.command {
            Command::Upsert { key, doc: _ } => Reply::Upserted {
                id: *key,
                replaced: false,
            },
            Command::Delete { key } => Reply::Deleted {
                id: *key,
                found: false,
            },
            Command::Get { key } => Reply::Got {
                id: *key,
                text: None,
            },
            _query => Reply::Rows(rows(alloc, number, number.checked_add(count)?)?),
        };
        replies
            .push(Placed {
                at: routed.at,
                reply,
            })
            .ok()?;
    }
    Some(Replies::of(replies))
}

fn rows(alloc: Global, first: u64, second: u64) -> Option<Rows> {
    let mut rows = Vec::new(alloc);
    rows.push(row(alloc, first)?).ok()?;
    rows.push(row(alloc, second)?).ok()?;
    Some(Rows::of(rows))
}

fn row(alloc: Global, id: u64) -> Option<Row> {
    let text = format!(in alloc; "{{\"id\":{id},\"values\":[]}}").ok()?;
    let text = Bytes::of(Vec::from_slice(alloc, text.as_str().as_bytes()).ok()?);
    Some(Row { id, text })
}
